//! Scripts from their text.
ghost use Rattle.std.specs.Prelude.{◌≡◌, List, IfOk, Err};
ghost use Rattle.xr_types.specs.declared.status.ScriptFault.{ScriptFault as Fault};
ghost use Rattle.xr_syntax.specs.Syntax.{Line};
ghost use Rattle.xr_syntax.specs.Scripts.{IsScriptText, IsFirstFault};
ghost use Rattle.xr_script.specs.declared.fault.ParseFault.TheVariants.{Script as of_script};
ghost use Rattle.xr_script.specs.Progress.{lines_of};
ghost use Rattle.xr_script.specs.Parsing.{IsRead, IsRefused};

use crate::fault::ParseFault;
use crate::walk::parse_tokens;
use std::alloc::Global;
use xr_syntax::Script;
use xr_tokens::{scan, text_of};

/// A text's tokens as a script, where the bytes are a text.
fn parsed(alloc: Global, bytes: &[u8]) -> Result<Script, ParseFault>
    ensures script { IfOk result (λ s. IsScriptText bytes.now (lines_of s.statements.items)) }
    ensures fault { (f : Fault) → result ≡ Err (of_script f) → IsFirstFault bytes.now f }
{
    match text_of(bytes) {
        Ok(text) => {
            let scan = scan(alloc, text)?;
            parse_tokens(alloc, &scan)
        }
        Err(fault) => Err(ParseFault::Script(fault)),
    }
}

/// The script that a text is, exactly where it is one, and else its first fault. Only want of memory is free.
pub fn parse(alloc: Global, bytes: &[u8]) -> Result<Script, ParseFault>
    ensures script { IfOk result (λ s. IsScriptText bytes.now (lines_of s.statements.items)) }
    ensures fault { (f : Fault) → result ≡ Err (of_script f) → IsFirstFault bytes.now f }
    ensures every_script { (ls : List Line) → IsScriptText bytes.now ls → IsRead result ls }
    ensures every_fault { (f : Fault) → IsFirstFault bytes.now f → IsRefused result f }
{
    parsed(alloc, bytes)
}
