// The decimal text of one number. No `Display`: a line is written whole or not at all, and its contract says each byte of it (`decimal`, `over`), which what a formatter prints doesn't.
ghost use Rattle.std.specs.Prelude.{◌≡◌, ◌≤◌, length};
ghost use Rattle.report_text.specs.Decimal.{decimal};
ghost use Rattle.report_text.specs.PublicPromises.{WidthPromise};
ghost use Rattle.report_text.specs.Writing.{over};

// How many bytes a number's text has.
pub fn width(n: u32) -> usize
    ensures { WidthPromise n result }
{
    if n < 10 { 1 } else { width(n / 10) + 1 }
}

// Writes a number's text at the start of a part that has room for it, the tens first: how many bytes it took.
pub(crate) fn put(out: &mut [u8], n: u32) -> usize
    requires { length (decimal n) ≤ length out.old }
    ensures { (result ≡ length (decimal n)) × (out.new ≡ over (decimal n) out.old) }
{
    if n < 10 {
        out[0] = b'0' + (n as u8);
        return 1;
    }
    let tens = put(out, n / 10);
    out[tens] = b'0' + ((n % 10) as u8);
    tens + 1
}
