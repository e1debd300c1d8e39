//! What holds of the tokens of every text.
ghost use Rattle.std.specs.Prelude.{◌≡◌, ◌+◌, ◌==◌, ◌++◌, ℕ, List, count_by};
ghost use Rattle.xr_syntax.specs.Spellings.{IsAsLong, IsSpelled, Spells};
ghost use Rattle.xr_syntax.specs.Tokens.{Tokens, front_of, tokens_of};
ghost use Rattle.xr_syntax.specs.declared.scan.Scan.{Scan};
ghost use Rattle.xr_syntax.specs.declared.scan.ScanEnd.TheVariants as ends;
ghost use Rattle.xr_syntax.specs.declared.token.Token.{Token};

/// A text has the tokens that a scan of it gives, and no others.
pub fn tokens_are_the_only_ones()
    ensures formed { (text : List ℕ) → Tokens text (tokens_of text) }
    ensures only { (text : List ℕ) (scan : Scan) → Tokens text scan → scan ≡ tokens_of text }
{}

/// What stands at the front of a text is spelled by its bytes, and no longer token can be formed there.
pub fn front_is_the_longest()
    ensures spelled { (text : List ℕ) → IsSpelled text (front_of text) }
    ensures longest { (spelled behind : List ℕ) (token : Token) → Spells spelled token → IsAsLong spelled (spelled ++ behind) (front_of (spelled ++ behind)) }
{}

/// A text without a bad token ends in the line that its line feeds count.
pub fn lines_are_counted()
    ensures { (text : List ℕ) (line : ℕ) → (tokens_of text).end ≡ ends.Whole line → line ≡ 1 + count_by (λ c. c == 10) text }
{}
