ghost use Rattle.std.specs.Prelude.{◌≡◌, ◌≤◌, true, length, IfOk};
ghost use Rattle.lines.specs.Fields.{all_digits, value_of, number_of};

use crate::fault::Cause;

// The number in a field, which is at most `limit`. Each function that hands it up says so again: the
// limit is an argument, and no type has it.
pub fn number(field: &[u8], limit: u32) -> Result<u32, Cause>
    ensures value { result ≡ number_of limit field.now }
    ensures bound { IfOk result (λ n. n ≤ limit) }
{
    if !all_digits(field) {
        return Err(Cause::Strange);
    }
    if field.len() > 10 {
        return Err(Cause::Large);
    }
    let value = value_of(field);
    if value > limit as u64 {
        return Err(Cause::Large);
    }
    Ok(value as u32)
}

fn all_digits(field: &[u8]) -> bool
    ensures { result ≡ all_digits field.now }
{
    field.iter().all(|b| b.is_ascii_digit())
}

// The number that at most ten digits write.
fn value_of(field: &[u8]) -> u64
    requires digits { all_digits field.now ≡ true }
    requires few { length field.now ≤ 10 }
    ensures { result ≡ value_of field.now }
{
    let mut value: u64 = 0;
    // no `fold`, tried: that the value fits at each digit does not close, which the loop's invariant says
    for b in field {
        value = 10 * value + (*b - b'0') as u64;
    }
    value
}
