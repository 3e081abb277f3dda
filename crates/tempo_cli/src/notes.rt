// What is told of a run that did not end Done.
ghost use Rattle.std.specs.Prelude.{◌≡◌, ◌++◌, OnOk, OnErr, IfSome, IfNone, Some, None, codes, decimal, map};
ghost use Rattle.wire_lines.specs.Journal.{Grows, SentAll, SentFront};
ghost use Rattle.wire_lines.specs.Faults.{HasCause};
ghost use Rattle.row_reader.specs.FieldTexts.{time_text as text_of_time};
ghost use Rattle.tempo_cli.specs.Status.{cause_words, cause_place, fault_words, fault_place};
ghost use Rattle.tempo_cli.specs.Status.{place_text as text_of_place, note_of, joined_pieces};
ghost use Rattle.tempo_cli.specs.Status.{IsNoted};

use crate::status::Status;
use itoa::Buffer;
use plan_model::QueryFault;
use row_reader::BadLine;
use tw_rows::Time;
use wire_lines::{Wire, WriteFailed, send};

// Writes the pieces in order.
fn send_pieces<N: Wire>(notes: &mut N, pieces: &[&[u8]]) -> Result<(), WriteFailed>
    ensures ok { OnOk result (Grows (N.journal notes.old) (N.journal notes.new)
        (SentAll (joined_pieces (map (λ p. p.now) pieces.now)))) }
    ensures err { OnErr result (Grows (N.journal notes.old) (N.journal notes.new)
        (SentFront (joined_pieces (map (λ p. p.now) pieces.now)))) }
    ensures cause { HasCause (N.write_faults notes.old) (N.write_faults notes.new) result }
{
    for piece in pieces {
        send(notes, piece)?;
    }
    Ok(())
}

fn words_of_cause(cause: &BadLine) -> &'static [u8]
    ensures { result.now ≡ cause_words cause.now }
{
    match cause {
        BadLine::TooLong => b"too long",
        BadLine::NotUtf8 => b"not utf-8",
        BadLine::StrayReturn => b"stray return",
        BadLine::OddQuotes => b"odd quotes",
        BadLine::UnknownStream => b"unknown stream",
        BadLine::UnknownKind => b"unknown kind",
        BadLine::WrongFields => b"wrong number of fields",
        BadLine::BadTime => b"bad time",
        BadLine::BadLife => b"bad life",
        BadLine::BadValue { .. } => b"bad value in column ",
        BadLine::NoStart => b"no open start",
    }
}

fn place_of_cause(cause: &BadLine) -> Option<usize>
    ensures { result ≡ cause_place cause.now }
{
    match cause {
        BadLine::BadValue { column } => Some(*column),
        _ => None,
    }
}

fn words_of_fault(fault: &QueryFault) -> &'static [u8]
    ensures { result.now ≡ fault_words fault.now }
{
    match fault {
        QueryFault::Syntax { .. } => b"syntax at ",
        QueryFault::LongExpr { .. } => b"expression too long at ",
        QueryFault::TooLarge => b"text too large",
        QueryFault::UnknownName { .. } => b"unknown name in item ",
        QueryFault::TypeClash { .. } => b"type clash in item ",
        QueryFault::NotEventLevel { .. } => b"not event level in item ",
        QueryFault::BadWindow { .. } => b"bad window in item ",
        QueryFault::ReachTooLong { .. } => b"reach too long in item ",
        QueryFault::TooManyNodes { .. } => b"too many nodes in item ",
        QueryFault::TooManyColumns { .. } => b"too many columns in item ",
        QueryFault::NameTaken { .. } => b"name taken in item ",
    }
}

fn place_of_fault(fault: &QueryFault) -> Option<usize>
    ensures { result ≡ fault_place fault.now }
{
    match fault {
        QueryFault::TooLarge => None,
        QueryFault::Syntax { at } | QueryFault::LongExpr { at } => Some(*at),
        QueryFault::UnknownName { item }
        | QueryFault::TypeClash { item }
        | QueryFault::NotEventLevel { item }
        | QueryFault::BadWindow { item }
        | QueryFault::ReachTooLong { item }
        | QueryFault::TooManyNodes { item }
        | QueryFault::TooManyColumns { item }
        | QueryFault::NameTaken { item } => Some(*item),
    }
}

fn place_text(buffer: &mut Buffer, place: Option<usize>) -> &[u8]
    ensures { result.now ≡ text_of_place place }
{
    match place {
        Some(number) => buffer.format(number).as_bytes(),
        None => b"",
    }
}

fn time_text(buffer: &mut Buffer, time: Time) -> &[u8]
    ensures { result.now ≡ text_of_time time }
{
    match time.get() {
        Some(number) => buffer.format(number).as_bytes(),
        None => b"inf",
    }
}

fn send_fault<N: Wire>(notes: &mut N, fault: &QueryFault) -> Result<(), WriteFailed>
    ensures ok { OnOk result (Grows (N.journal notes.old) (N.journal notes.new)
        (SentAll (note_of (Status.BadQuery fault.now)))) }
    ensures err { OnErr result (Grows (N.journal notes.old) (N.journal notes.new)
        (SentFront (note_of (Status.BadQuery fault.now)))) }
    ensures cause { HasCause (N.write_faults notes.old) (N.write_faults notes.new) result }
{
    let mut place = Buffer::new();
    let number = place_text(&mut place, place_of_fault(fault));
    send_pieces(
        notes,
        &[b"query: ".as_slice(), words_of_fault(fault), number, b"\n"],
    )
}

fn send_bad_line<N: Wire>(notes: &mut N, line: u64, cause: &BadLine) -> Result<(), WriteFailed>
    ensures ok { OnOk result (Grows (N.journal notes.old) (N.journal notes.new)
        (SentAll (note_of (Status.Malformed line cause.now)))) }
    ensures err { OnErr result (Grows (N.journal notes.old) (N.journal notes.new)
        (SentFront (note_of (Status.Malformed line cause.now)))) }
    ensures cause { HasCause (N.write_faults notes.old) (N.write_faults notes.new) result }
{
    let mut number = Buffer::new();
    let mut place = Buffer::new();
    let line = number.format(line).as_bytes();
    let column = place_text(&mut place, place_of_cause(cause));
    send_pieces(
        notes,
        &[
            b"line ".as_slice(),
            line,
            b": ",
            words_of_cause(cause),
            column,
            b"\n",
        ],
    )
}

fn send_bad_checkpoint<N: Wire>(notes: &mut N, line: u64) -> Result<(), WriteFailed>
    ensures ok { OnOk result (Grows (N.journal notes.old) (N.journal notes.new)
        (SentAll (note_of (Status.BadCheckpoint line)))) }
    ensures err { OnErr result (Grows (N.journal notes.old) (N.journal notes.new)
        (SentFront (note_of (Status.BadCheckpoint line)))) }
    ensures cause { HasCause (N.write_faults notes.old) (N.write_faults notes.new) result }
{
    let mut number = Buffer::new();
    let line = number.format(line).as_bytes();
    send_pieces(notes, &[b"line ".as_slice(), line, b": not a checkpoint\n"])
}

fn send_late<N: Wire>(notes: &mut N, line: u64, time: Time, bound: Time) -> Result<(), WriteFailed>
    ensures ok { OnOk result (Grows (N.journal notes.old) (N.journal notes.new)
        (SentAll (note_of (Status.Late line time bound)))) }
    ensures err { OnErr result (Grows (N.journal notes.old) (N.journal notes.new)
        (SentFront (note_of (Status.Late line time bound)))) }
    ensures cause { HasCause (N.write_faults notes.old) (N.write_faults notes.new) result }
{
    let mut a = Buffer::new();
    let mut b = Buffer::new();
    let mut c = Buffer::new();
    let line = a.format(line).as_bytes();
    let time = time_text(&mut b, time);
    let bound = time_text(&mut c, bound);
    send_pieces(
        notes,
        &[
            b"line ".as_slice(),
            line,
            b": late, ",
            time,
            b" below ",
            bound,
            b"\n",
        ],
    )
}

fn send_overflow<N: Wire>(
    notes: &mut N,
    punct: Time,
    node: usize,
    time: Time,
) -> Result<(), WriteFailed>
    ensures ok { OnOk result (Grows (N.journal notes.old) (N.journal notes.new)
        (SentAll (note_of (Status.Overflow punct node time)))) }
    ensures err { OnErr result (Grows (N.journal notes.old) (N.journal notes.new)
        (SentFront (note_of (Status.Overflow punct node time)))) }
    ensures cause { HasCause (N.write_faults notes.old) (N.write_faults notes.new) result }
{
    let mut a = Buffer::new();
    let mut b = Buffer::new();
    let mut c = Buffer::new();
    let node = a.format(node).as_bytes();
    let time = time_text(&mut b, time);
    let punct = time_text(&mut c, punct);
    send_pieces(
        notes,
        &[
            b"node ".as_slice(),
            node,
            b": overflow at ",
            time,
            b", closing ",
            punct,
            b"\n",
        ],
    )
}

fn send_note<N: Wire>(notes: &mut N, status: &Status) -> Result<(), WriteFailed>
    ensures ok { OnOk result (Grows (N.journal notes.old) (N.journal notes.new)
        (SentAll (note_of status.now))) }
    ensures err { OnErr result (Grows (N.journal notes.old) (N.journal notes.new)
        (SentFront (note_of status.now))) }
    ensures cause { HasCause (N.write_faults notes.old) (N.write_faults notes.new) result }
{
    match status {
        Status::Done | Status::BadWords => Ok(()),
        Status::BadQuery(fault) => send_fault(notes, fault),
        Status::Malformed { line, cause } => send_bad_line(notes, *line, cause),
        Status::Late { line, time, bound } => send_late(notes, *line, *time, *bound),
        Status::Overflow { punct, node, time } => send_overflow(notes, *punct, *node, *time),
        Status::InputTooLong => send_pieces(notes, &[b"input too long\n".as_slice()]),
        Status::ReadFault => send_pieces(notes, &[b"read failed\n".as_slice()]),
        Status::WriteFault => send_pieces(notes, &[b"write failed\n".as_slice()]),
        Status::Memory => send_pieces(notes, &[b"no memory\n".as_slice()]),
        Status::BadCheckpoint { line } => send_bad_checkpoint(notes, *line),
    }
}

/// Writes the note of the status. It takes no memory, and a fault of the notes changes nothing else.
pub fn note<N: Wire>(notes: &mut N, status: &Status)
    ensures { Grows (N.journal notes.old) (N.journal notes.new)
        (IsNoted status.now (N.write_faults notes.old) (N.write_faults notes.new)) }
{
    match send_note(notes, status) {
        Ok(()) => {}
        Err(WriteFailed) => {}
    }
}
