//! What holds of every text.
ghost use Rattle.std.specs.Prelude.{◌≡◌, ℕ, List};
ghost use Rattle.xr_types.specs.declared.status.ScriptFault.{ScriptFault};
ghost use Rattle.xr_syntax.specs.Syntax.{Line};
ghost use Rattle.xr_syntax.specs.Scripts.{IsScriptText, IsFirstFault};

/// A text is a script with one tree, or has one first fault.
pub fn one_answer_fits()
    ensures tree { (bytes : List ℕ) (ls ms : List Line) → IsScriptText bytes ls → IsScriptText bytes ms → ls ≡ ms }
    ensures fault { (bytes : List ℕ) (f g : ScriptFault) → IsFirstFault bytes f → IsFirstFault bytes g → f ≡ g }
    ensures either { (bytes : List ℕ) (ls : List Line) (f : ScriptFault) → IsScriptText bytes ls → IsFirstFault bytes f → ⊥ }
{}
