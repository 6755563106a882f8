// Moving bytes within and between buffers, as far as there is room.
#![tactic(auto)]

ghost use Rattle.std.specs.Prelude.{◌≡◌, ◌++◌, ◌-◌, length, take, drop, replicate};
ghost use Rattle.lists.specs.Write.{overwritten, placed, padded};

// Copies src to buffer from `at` on, as many bytes as there is room for.
pub fn place(buffer: &mut [u8], at: usize, src: &[u8])
    ensures { buffer.new
        ≡ placed buffer.old at (take (length buffer.old - at) src.now) }
{
    if at < buffer.len() {
        let n = src.len().min(buffer.len() - at);
        for i in 0..n {
            buffer[at + i] = src[i];
        }
    }
}

// Moves the bytes from `from` up to `end`, or up to the buffer's end, to its start.
pub fn shift(buffer: &mut [u8], from: usize, end: usize)
    ensures { buffer.new ≡ overwritten buffer.old (take (end - from) (drop from buffer.old)) }
{
    let end = end.min(buffer.len());
    if 0 < from && from < end {
        buffer.copy_within(from..end, 0);
    }
}

// Sets all bytes from `from` on to 0.
pub fn clear(buffer: &mut [u8], from: usize)
    ensures { buffer.new ≡ take from buffer.old ++ replicate (length buffer.old - from) 0 }
{
    if from < buffer.len() {
        buffer[from..].fill(0);
    }
}

// The first 8 bytes, with 0 for those that are missing.
pub fn first_eight(bytes: &[u8]) -> [u8; 8]
    ensures { result ≡ padded 8 (take 8 bytes.now) }
{
    let mut out = [0u8; 8];
    place(&mut out, 0, bytes);
    out
}
