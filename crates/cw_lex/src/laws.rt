//! What holds of every source's tokens.

ghost use Rattle.std.specs.Prelude.{◌≡◌, ◌^◌, ◌<◌, ◌↔◌, ℕ, List, length, true};
ghost use Rattle.cw_lex.specs.declared.tokens.Token.{Token};
ghost use Rattle.cw_lex.specs.declared.tokens.TokenKind.{TokenKind};
ghost use Rattle.cw_lex.specs.declared.tokens.TokenKind.TheVariants.{Keyword, Number, Character, Text};
ghost use Rattle.cw_lex.specs.declared.front.Front.TheVariants as front;
ghost use Rattle.cw_lex.specs.declared.lexer.LexFault.{LexFault};
ghost use Rattle.cw_lex.specs.Characters.{character_of};
ghost use Rattle.cw_lex.specs.Forms.{IsCharacter, IsString};
ghost use Rattle.cw_lex.specs.Keywords.{is_keyword};
ghost use Rattle.cw_lex.specs.Numbers.{number_of};
ghost use Rattle.cw_lex.specs.Fronts.{front_at};
ghost use Rattle.cw_lex.specs.Tokens.{AreTokens, IsFault};
ghost use Rattle.cw_lex.specs.Listed.{AreInOrder, AreOfTheirKind};

/// A source has one list of tokens, or one fault, and never both.
pub fn laws_of_sources()
    ensures one_list { (source : List ℕ) (tokens others : List Token)
        → AreTokens source tokens → AreTokens source others → tokens ≡ others }
    ensures one_fault { (source : List ℕ) (fault another : LexFault)
        → IsFault source fault → IsFault source another → fault ≡ another }
    ensures never_both { (source : List ℕ) (tokens : List Token) (fault : LexFault)
        → AreTokens source tokens → IsFault source fault → ⊥ }
{}

/// The tokens of a source lie in it, one after the other, and none is empty. The bytes of each, alone, are that token. So a token is a
/// keyword exactly where its bytes are one of the 44, and 64 bits hold the value of each number.
pub fn laws_of_tokens()
    ensures in_order { (source : List ℕ) (tokens : List Token)
        → AreTokens source tokens → AreInOrder 0 (length source) tokens }
    ensures of_their_kind { (source : List ℕ) (tokens : List Token)
        → AreTokens source tokens → AreOfTheirKind source tokens }
    ensures keywords { (text : List ℕ) (kind : TokenKind)
        → front_at true text ≡ front.Token kind (length text) → (kind ≡ Keyword) ↔ (is_keyword text ≡ true) }
    ensures numbers { (text : List ℕ)
        → front_at true text ≡ front.Token Number (length text) → number_of text < 2 ^ 64 }
{}

/// The forms of characters and strings. Bytes alone are a character exactly where they are a quote, an item and a quote; its value is the
/// item's. They are a string exactly where they are a quote, items one after the other and a quote.
pub fn laws_of_texts()
    ensures characters { (text : List ℕ)
        → front_at true text ≡ front.Token Character (length text) → IsCharacter text (character_of text) }
    ensures all_characters { (text : List ℕ) (value : ℕ)
        → IsCharacter text value
        → (front_at true text ≡ front.Token Character (length text)) × (character_of text ≡ value) }
    ensures strings { (text : List ℕ)
        → (front_at true text ≡ front.Token Text (length text)) ↔ IsString text }
{}
