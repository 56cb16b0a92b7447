//! What holds of the tokens of every source: functions that do nothing.

ghost use Rattle.std.specs.Prelude.{◌≡◌, ◌≢◌, ℕ, List};
ghost use Rattle.cw_syntax.specs.Trees.{File};
ghost use Rattle.cw_lex.specs.declared.tokens.Token.{Token};
ghost use Rattle.cw_parse.specs.declared.fault.ParseFault.{ParseFault};
ghost use Rattle.cw_parse.specs.declared.fault.ParseFault.TheVariants.{NoMemory};
ghost use Rattle.cw_parse.specs.Faults.{IsParsed, IsParseFault};

/// The tokens of a source have one program, or one fault but want of memory, and never both.
pub fn laws_of_programs()
    ensures one_program { (source : List ℕ) (tokens : List Token) (file other : File)
        → IsParsed source tokens file → IsParsed source tokens other → file ≡ other }
    ensures one_fault { (source : List ℕ) (tokens : List Token) (fault another : ParseFault)
        → fault ≢ NoMemory → another ≢ NoMemory
        → IsParseFault source tokens fault → IsParseFault source tokens another → fault ≡ another }
    ensures never_both { (source : List ℕ) (tokens : List Token) (file : File) (fault : ParseFault)
        → fault ≢ NoMemory → IsParsed source tokens file → IsParseFault source tokens fault → ⊥ }
{}
