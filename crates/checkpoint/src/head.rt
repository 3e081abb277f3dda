// The lines before what was frozen, which whoever knows the query and the options knows, and the last line.
ghost use Rattle.std.specs.Prelude.{◌≡◌, ◌++◌, ◌∷◌, OnOk, OnErr, IfOk, ◌≤◌, vec_capacity};
ghost use Rattle.checkpoint.specs.Room.{LacksRoom};
ghost use Rattle.row_reader.specs.Number.{same_text};
ghost use Rattle.checkpoint.specs.Lines.{form_line, query_line, options_line, late_text, end_line};

use crate::fields::push_number_field;
use admission::{Lateness, Policy};
use std::alloc::Global;
use tw_rows::Memory;

/// Appends the first line, which tells the form of the checkpoint.
pub fn push_form_line(out: &mut Vec<u8>) -> Result<(), Memory>
    ensures { OnOk result (out.new.items ≡ out.old.items ++ form_line) }
{
    out.extend_from_slice(b"#tempo,1")?;
    Ok(())
}

/// Whether it is the first line of a checkpoint of this form.
pub fn is_form_line(line: &[u8]) -> bool
    ensures { result ≡ same_text line.now form_line }
{
    line == b"#tempo,1".as_slice()
}

/// Appends the line of a part of the query's bytes, of 30,000 at most.
pub fn push_query_line(alloc: Global, out: &mut Vec<u8>, bytes: &[u8]) -> Result<(), Memory>
    ensures { OnOk result (out.new.items ≡ out.old.items ++ query_line bytes.now) }
{
    out.extend_from_slice(b"#query,")?;
    let digits = hex::encode(alloc, bytes)?;
    out.extend_from_slice(digits.as_bytes())?;
    Ok(())
}

/// Whether it is the line of these bytes of the query.
pub fn is_query_line(alloc: Global, line: &[u8], bytes: &[u8]) -> Result<bool, Memory>
    ensures { IfOk result (λ same. same ≡ same_text line.now (query_line bytes.now)) }
{
    let mut expected = Vec::new(alloc);
    push_query_line(alloc, &mut expected, bytes)?;
    Ok(line == expected.as_slice())
}

fn late_word(late: Lateness) -> &'static str
    ensures { result.now ≡ late_text late }
{
    match late {
        Lateness::Refuse => "refuse",
        Lateness::Drop => "drop",
        Lateness::Adjust => "adjust",
    }
}

/// Appends the line of the options that change what an engine answers.
pub fn push_options_line(out: &mut Vec<u8>, workers: u64, policy: &Policy) -> Result<(), Memory>
    ensures { OnOk result (out.new.items ≡ out.old.items ++ options_line workers policy.now) }
{
    out.extend_from_slice(b"#options")?;
    push_number_field(out, workers)?;
    out.push(b',')?;
    out.extend_from_slice(late_word(policy.late).as_bytes())?;
    push_number_field(out, policy.lateness)?;
    push_number_field(out, policy.period)
}

/// Whether it is the line of these options.
pub fn is_options_line(
    alloc: Global,
    line: &[u8],
    workers: u64,
    policy: &Policy,
) -> Result<bool, Memory>
    ensures { IfOk result (λ same. same ≡ same_text line.now (options_line workers policy.now)) }
{
    let mut expected = Vec::new(alloc);
    push_options_line(&mut expected, workers, policy)?;
    Ok(line == expected.as_slice())
}

/// Appends the last line.
pub fn push_end_line(out: &mut Vec<u8>) -> Result<(), Memory>
    ensures ok { OnOk result (out.new.items ≡ out.old.items ++ end_line) }
    ensures room { vec_capacity out.old ≤ vec_capacity out.new }
    ensures full { OnErr result (LacksRoom out.old end_line) }
{
    out.extend_from_slice(b"#end")?;
    Ok(())
}

/// Whether it is the last line.
pub fn is_end_line(line: &[u8]) -> bool
    ensures { result ≡ same_text line.now end_line }
{
    line == b"#end".as_slice()
}
