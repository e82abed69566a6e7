// Parts of a row of bytes written in place.
ghost use Rattle.std.specs.Prelude.{◌≡◌, ◌+◌, ◌≤◌, ◌++◌, length, take, drop};

// Writes a part at a place; what is before it and behind it stays.
#[tactic(auto, using(std::proofs::lemmas::Slice::overwrites))]
pub fn put(out: &mut [u8], at: usize, part: &[u8])
    requires { at + length part.now ≤ length out.old }
    ensures written { take (at + length part.now) out.new ≡ take at out.old ++ part.now }
    ensures rest { drop (at + length part.now) out.new ≡ drop (at + length part.now) out.old }
{
    out[at..at + part.len()].copy_from_slice(part);
}

// Writes a part to end at a place, and tells where it begins.
pub fn put_before(out: &mut [u8], end: usize, part: &[u8]) -> usize
    requires room { length part.now ≤ end }
    requires within { end ≤ length out.old }
    ensures place { result + length part.now ≡ end }
    ensures written { drop result out.new ≡ part.now ++ drop end out.old }
    ensures before { take result out.new ≡ take result out.old }
{
    let at = end - part.len();
    out[at..end].copy_from_slice(part);
    at
}

// The same with two parts, the second ending there.
pub fn put_pair(out: &mut [u8], end: usize, first: &[u8], second: &[u8]) -> usize
    requires room { length (first.now ++ second.now) ≤ end }
    requires within { end ≤ length out.old }
    ensures place { result + length (first.now ++ second.now) ≡ end }
    ensures written { drop result out.new ≡ (first.now ++ second.now) ++ drop end out.old }
    ensures before { take result out.new ≡ take result out.old }
{
    let at = put_before(out, end, second);
    put_before(out, at, first)
}
