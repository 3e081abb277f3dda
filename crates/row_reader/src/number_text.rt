// Numbers as they are spelled: -5 with 2 places as `-0.05`.
ghost use Rattle.std.specs.Prelude.{◌≡◌, ◌++◌, ◌^◌, ◌<◌, OnOk, OnErr};
ghost use Rattle.csv.specs.Writing.{default_writer, field_text};
ghost use Rattle.row_reader.specs.NumberTexts.{number_text, units_text, pointed};
ghost use Rattle.row_reader.specs.RecordTexts.{Begins};

use itoa::Buffer;
use tw_rows::Memory;

// Appends the digits with a point before the last so many of them, and with zeros before them where they are too few.
#[tactic(auto, using(crate::proofs::Begin::begin_steps))]
fn push_pointed(out: &mut Vec<u8>, digits: &[u8], places: usize) -> Result<(), Memory>
    ensures ok { OnOk result (out.new.items ≡ out.old.items ++ pointed places digits.now) }
    ensures err { OnErr result (Begins out.old.items out.new.items) }
{
    if digits.len() <= places {
        out.extend_from_slice(b"0.")?;
        for _ in digits.len()..places {
            out.push(b'0')?;
        }
        out.extend_from_slice(digits)?;
    } else {
        let point = digits.len() - places;
        out.extend_from_slice(&digits[..point])?;
        out.push(b'.')?;
        out.extend_from_slice(&digits[point..])?;
    }
    Ok(())
}

#[tactic(auto, using(crate::proofs::Begin::begin_steps, crate::proofs::Units::pointed_units))]
fn push_units(out: &mut Vec<u8>, places: usize, units: u64) -> Result<(), Memory>
    ensures ok { OnOk result (out.new.items ≡ out.old.items ++ units_text places units) }
    ensures err { OnErr result (Begins out.old.items out.new.items) }
{
    let mut buffer = Buffer::new();
    let digits = buffer.format(units).as_bytes();
    if places == 0 {
        out.extend_from_slice(digits)?;
        Ok(())
    } else {
        push_pointed(out, digits, places)
    }
}

/// Appends the number of units, of which ten to the power of the places make one.
#[tactic(auto, using(crate::proofs::Begin::begin_steps))]
pub fn push_number(out: &mut Vec<u8>, places: u8, number: i64) -> Result<(), Memory>
    ensures ok { OnOk result (out.new.items ≡ out.old.items ++ number_text places number) }
    ensures field { field_text default_writer (number_text places number)
        ≡ number_text places number }
    ensures err { OnErr result (Begins out.old.items out.new.items) }
{
    if number < 0 {
        out.push(b'-')?;
    }
    push_units(out, places as usize, number.unsigned_abs())
}
