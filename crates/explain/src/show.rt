ghost use Rattle.std.specs.Prelude.{◌≡◌, ℕ, ◌<◌, ◌≤◌, List, length};
ghost use Rattle.std.specs.List.{flat_map};
ghost use Rattle.text.specs.Kept.{added};
ghost use Rattle.explain.specs.Explained.{berth_text, sailing_text, name_text, berth_number_text, byte_text, hex_digit};

use keys::berth::Berth;
use keys::name::Name;
use lines::berths::Sailing;
use text::Text;

// A key or a value that can be written in words. A trait of this program's own, since board_server
// gives the same types other texts.
pub trait Show<const N: usize>: Copy {
    ghost shown: { Self → List ℕ };

    fn show(self, out: &mut Text<N>)
        ensures text { out.new ≡ added N out.old (shown self) }
        ensures short { length (shown self) ≤ 53 };
}

impl<const N: usize> Show<N> for Berth {
    ghost shown = { berth_text };

    fn show(self, out: &mut Text<N>) {
        out.push_bytes(b"harbour ");
        out.push_number(self.harbour);
        out.push_bytes(b", berth ");
        out.push_number(self.berth);
    }
}

impl<const N: usize> Show<N> for Sailing {
    ghost shown = { sailing_text };

    fn show(self, out: &mut Text<N>) {
        out.push_bytes(b"ship ");
        out.push_number(self.ship);
        out.push_bytes(b", minute ");
        out.push_number(self.minute);
    }
}

impl<const N: usize> Show<N> for u16 {
    ghost shown = { berth_number_text };

    fn show(self, out: &mut Text<N>) {
        out.push_bytes(b"berth ");
        out.push_number(self);
    }
}

impl<const N: usize> Show<N> for Name {
    ghost shown = { name_text };

    fn show(self, out: &mut Text<N>) {
        out.push_bytes(b"name ");
        for byte in self.used() {
            show_byte(*byte, out);
        }
    }
}

// The byte itself, or \xHH if it is not printable or is a backslash.
fn show_byte<const N: usize>(byte: u8, out: &mut Text<N>)
    ensures { out.new ≡ added N out.old (byte_text byte) }
{
    if matches!(byte, b' '..=b'~') && byte != b'\\' {
        out.push(byte);
    } else {
        out.push_bytes(&[b'\\', b'x', hex_digit(byte / 16), hex_digit(byte % 16)]);
    }
}

fn hex_digit(digit: u8) -> u8
    requires { digit < 16 }
    ensures { result ≡ hex_digit digit }
{
    match digit {
        0..=9 => b'0' + digit,
        _ => b'a' + (digit - 10),
    }
}
