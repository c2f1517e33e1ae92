//! The threads that may step, as a list in place.

ghost use Rattle.std.specs.Prelude.{◌≡◌, ◌<◌, ◌+◌, ◌++◌, ◌∷◌, [], take, length, if◌then◌else◌};

/// Puts a thread behind the first `count`, where the test holds, and gives the number that then stand there.
pub fn put_if(into: &mut [u8; 8], count: usize, tid: u8, test: bool) -> usize
    requires { count < 8 }
    ensures list { take result into.new ≡ take count into.old ++ (if test then tid ∷ [] else []) }
    ensures number { result ≡ count + length (if test then tid ∷ [] else []) }
    ensures place { length into.new ≡ 8 }
{
    if !test {
        return count;
    }
    into[count] = tid;
    count + 1
}
