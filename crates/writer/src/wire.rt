// Numbers as big-endian bytes.
ghost use Rattle.std.specs.Prelude.{◌≡◌, ◌≤◌, length};
ghost use Rattle.writer.specs.Bytes.{bytes_of, in_bytes};

// The lowest bytes of x, one to each place, the highest of them first.
pub(crate) fn put(x: u64, out: &mut [u8])
    requires { length out.old ≤ 8 }
    ensures { out.new ≡ bytes_of (length out.old) x }
{
    let bytes = x.to_be_bytes();
    out.copy_from_slice(&bytes[bytes.len() - out.len()..]);
}

// Those of the 64 bits of a signed number.
pub(crate) fn put_signed(x: i64, out: &mut [u8])
    requires { length out.old ≤ 8 }
    ensures { out.new ≡ in_bytes (length out.old) x }
{
    put(x.cast_unsigned(), out);
}
