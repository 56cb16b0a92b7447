//! What holds of every text that is read. The functions do nothing: their contracts are the laws.

ghost use Rattle.std.specs.Prelude.{◌≡◌, ◌≢◌, ◌⊎◌, ℕ, List, map};
ghost use Rattle.cw_emit.specs.Cut.{closing, cut, opening};
ghost use Rattle.cw_emit.specs.Woven.{placed, Stands};
ghost use Rattle.cw_syntax.specs.PlainMarks.{HasNone};
ghost use Rattle.cw_table_text.specs.TablesText.{tables_text};
ghost use Rattle.cw_rights.specs.Policies.{PlainPolicy};
ghost use Rattle.cw_syntax.specs.Trees.{File};
ghost use Rattle.cw_certs.specs.Tables.{Table};
ghost use Rattle.cw_rights.specs.Valid.{IsValid};
ghost use Rattle.cw_table_text.specs.Grammar.{IsTable};
ghost use Rattle.cw_woven.specs.declared.fault.WovenFault.{WovenFault};
ghost use Rattle.cw_woven.specs.declared.fault.WovenFault.TheVariants.{NoMemory};
ghost use Rattle.cw_woven.specs.Parts.{AreParts, IsCutAt, Insertion, without};
ghost use Rattle.cw_woven.specs.Reading.{IsAccepted, IsFault, ReadsWoven, seam_marks};

/// What a text is read as it stands for: the text is the prologue with the table, and the source with the marks of its seams.
pub fn what_is_read_stands()
    ensures { (policy : PlainPolicy) (text source : List ℕ) (file : File) (table : Table)
        → ReadsWoven policy text source file table
        → Stands text source (seam_marks policy source file) table policy }
{}

/// For a valid policy, what stands for an accepted source and a table that has a text is read as these.
pub fn what_stands_is_read()
    ensures { (policy : PlainPolicy) (text source : List ℕ) (file : File) (table : Table)
        → IsValid policy → IsAccepted policy source file → IsTable policy.format table
        → Stands text source (seam_marks policy source file) table policy
        → ReadsWoven policy text source file table }
{}

/// A text is read as one source, under whatever policies.
pub fn one_source()
    ensures { (policy other : PlainPolicy) (text source source2 : List ℕ) (file file2 : File) (table table2 : Table)
        → ReadsWoven policy text source file table
        → ReadsWoven other text source2 file2 table2
        → source ≡ source2 }
{}

/// For one policy, the lines of the table are the same in all that a text is read as.
pub fn one_table_text()
    ensures { (policy : PlainPolicy) (text source source2 : List ℕ) (file file2 : File) (table table2 : Table)
        → ReadsWoven policy text source file table
        → ReadsWoven policy text source2 file2 table2
        → tables_text policy table ≡ tables_text policy table2 }
{}

/// The marks stand at the same places and are spelled alike in all that a text is read as.
pub fn one_list_of_marks()
    ensures { (policy other : PlainPolicy) (text source source2 : List ℕ) (file file2 : File) (table table2 : Table)
        → ReadsWoven policy text source file table
        → ReadsWoven other text source2 file2 table2
        → map (placed policy source) (seam_marks policy source file) ≡ map (placed other source2) (seam_marks other source2 file2) }
{}

/// For a valid policy a text is read as one source, one program and one table at most, and what is read has no fault but want of memory.
pub fn one_answer()
    ensures one { (policy : PlainPolicy) (text source source2 : List ℕ) (file file2 : File) (table table2 : Table)
        → IsValid policy → ReadsWoven policy text source file table
        → ReadsWoven policy text source2 file2 table2
        → (source ≡ source2) × (file ≡ file2) × (table ≡ table2) }
    ensures apart { (policy : PlainPolicy) (text source : List ℕ) (file : File) (table : Table) (fault : WovenFault)
        → IsValid policy → ReadsWoven policy text source file table
        → fault ≢ NoMemory → IsFault policy text fault → ⊥ }
{}

/// A text that is read is the source that it is read as, once each part from `/*cw{*/` to the next `/*}cw*/` is cut out.
pub fn what_is_read_is_cut()
    ensures cut { (policy : PlainPolicy) (text source : List ℕ) (file : File) (table : Table)
        → ReadsWoven policy text source file table
        → cut text ≡ source }
{}

/// What `cut` leaves of a text is what stands before its parts, between them and behind them; where a part isn't closed, what stands before
/// it. Each text is of the one kind or of the other.
pub fn cut_leaves_what_is_outside()
    ensures closed { (text : List ℕ) (parts : List Insertion) (left : List ℕ)
        → AreParts text parts left → HasNone opening left
        → cut text ≡ without parts left }
    ensures unclosed { (text : List ℕ) (parts : List Insertion) (left gap remainder : List ℕ)
        → AreParts text parts left → IsCutAt opening left gap remainder → HasNone closing remainder
        → cut text ≡ without parts gap }
    ensures each { (text : List ℕ)
        → ((parts : List Insertion) × (left : List ℕ) × AreParts text parts left × HasNone opening left)
        ⊎ ((parts : List Insertion) × (left : List ℕ) × (gap : List ℕ) × (remainder : List ℕ) × AreParts text parts left × IsCutAt opening left gap remainder × HasNone closing remainder) }
{}

/// For a valid policy a text has one fault at most, want of memory left aside.
pub fn one_fault()
    ensures fault { (policy : PlainPolicy) (text : List ℕ) (f g : WovenFault)
        → IsValid policy → f ≢ NoMemory → g ≢ NoMemory
        → IsFault policy text f → IsFault policy text g
        → f ≡ g }
{}
