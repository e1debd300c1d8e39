//! The line on the error sink that a run ends with.
ghost use Rattle.std.specs.Prelude.{◌≡◌, ◌++◌, ◌∷◌, [], OnOk, IfOk, codes};
ghost use Rattle.std.specs.Fmt.{decimal};
ghost use Rattle.xr_types.specs.Faults.{script_words};
ghost use Rattle.xr_defs.specs.Text.{printed_name};
ghost use Rattle.xr_defs.specs.Messages.{named_text, fault_text, script_name, status_line};

use crate::printed_name::push_name;
use itoa::Buffer;
use std::alloc::{AllocError, Global};
use xr_types::{Fault, Name, ScriptFault, Status, TextBytes};

const USAGE: &[u8] = b"xrs: usage: xrs [--workers N] [--chunk N] SCRIPT | --demo N\n";

fn push_number(out: &mut Vec<u8>, n: u64) -> Result<(), AllocError>
    ensures { OnOk result (out.new.items ≡ out.old.items ++ decimal n) }
{
    let mut digits = Buffer::new();
    out.extend_from_slice(digits.format(n).as_bytes())
}

fn push_blank_name(out: &mut Vec<u8>, name: &Name) -> Result<(), AllocError>
    ensures { OnOk result (out.new.items ≡ out.old.items ++ 32 ∷ printed_name name.now) }
{
    out.push(b' ')?;
    push_name(out, name.as_bytes())
}

// What a fault names, behind its words.
fn push_named(out: &mut Vec<u8>, fault: &Fault) -> Result<(), AllocError>
    ensures { OnOk result (out.new.items ≡ out.old.items ++ named_text fault.now) }
{
    match fault {
        Fault::UnknownName(name)
        | Fault::NoVariable(name)
        | Fault::NoDimension(name)
        | Fault::NoFile(name)
        | Fault::NotLoaded(name) => push_blank_name(out, name),
        Fault::BadFile(kind, offset) => {
            out.push(b' ')?;
            out.extend_from_slice(kind.words().as_bytes())?;
            out.extend_from_slice(b" at ")?;
            push_number(out, *offset)
        }
        _ => Ok(()),
    }
}

fn push_fault(out: &mut Vec<u8>, fault: &Fault) -> Result<(), AllocError>
    ensures { OnOk result (out.new.items ≡ out.old.items ++ fault_text fault.now) }
{
    out.push(b'F')?;
    push_number(out, u64::from(fault.number()))?;
    out.push(b' ')?;
    out.extend_from_slice(fault.words().as_bytes())?;
    push_named(out, fault)
}

fn refused_line(alloc: Global, number: u32, fault: &Fault) -> Result<Vec<u8>, AllocError>
    ensures { IfOk result (λ v. v.items ≡ codes "xrs: statement " ++ (decimal number ++ (codes ": " ++ (fault_text fault.now ++ 10 ∷ [])))) }
{
    let mut out = Vec::from_slice(alloc, b"xrs: statement ")?;
    push_number(&mut out, u64::from(number))?;
    out.extend_from_slice(b": ")?;
    push_fault(&mut out, fault)?;
    out.push(b'\n')?;
    Ok(out)
}

fn script_line(alloc: Global, fault: ScriptFault) -> Result<Vec<u8>, AllocError>
    ensures { IfOk result (λ v. v.items ≡ codes "xrs: line " ++ (decimal fault.line ++ (codes ": " ++ (script_words fault.kind ++ 10 ∷ [])))) }
{
    let mut out = Vec::from_slice(alloc, b"xrs: line ")?;
    push_number(&mut out, u64::from(fault.line))?;
    out.extend_from_slice(b": ")?;
    out.extend_from_slice(fault.kind.words().as_bytes())?;
    out.push(b'\n')?;
    Ok(out)
}

// The bytes of the script's name, where the words give one.
fn script_name(script: &Option<TextBytes>) -> &[u8]
    ensures { result.now ≡ script_name script.now }
{
    match script {
        Some(name) => name.as_bytes(),
        None => b"",
    }
}

fn no_script_line(alloc: Global, script: &Option<TextBytes>) -> Result<Vec<u8>, AllocError>
    ensures { IfOk result (λ v. v.items ≡ codes "xrs: no script " ++ (printed_name (script_name script.now) ++ 10 ∷ [])) }
{
    let mut out = Vec::from_slice(alloc, b"xrs: no script ")?;
    push_name(&mut out, script_name(script))?;
    out.push(b'\n')?;
    Ok(out)
}

/// The line for a status of the run of a script.
pub(crate) fn status_line(
    alloc: Global,
    script: &Option<TextBytes>,
    status: &Status,
) -> Result<Vec<u8>, AllocError>
    ensures { IfOk result (λ v. v.items ≡ status_line script.now status.now) }
{
    match status {
        Status::Done => Ok(Vec::new(alloc)),
        Status::Refused(number, fault) => refused_line(alloc, *number, fault),
        Status::BadWords => Vec::from_slice(alloc, USAGE),
        Status::NoScript => no_script_line(alloc, script),
        Status::BadScript(fault) => script_line(alloc, *fault),
        Status::Storage => Vec::from_slice(alloc, b"xrs: storage fault\n"),
        Status::NoMemory => Vec::from_slice(alloc, b"xrs: out of memory\n"),
    }
}
