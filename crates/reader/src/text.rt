//! A text from a place on, and how far a run reaches.
ghost use Rattle.std.specs.Prelude.{◌≡◌, ℕ, Bool, ◌-◌, ◌≤◌, length, drop};
ghost use Rattle.std.specs.List.{prefix_len};

// The text from a place on, nothing where the place is past its end.
pub fn rest_at(text: &[u8], place: usize) -> &[u8]
    ensures is { result.now ≡ drop place text.now }
    ensures len { length result.now ≡ length text.now - place }
{
    text.get(place..).unwrap_or(&[])
}

// How many bytes from the start on pass a test.
pub(crate) fn run_len<F: Fn(u8) -> bool>(s: &[u8], passes: F) -> usize
    requires { F.IsAlwaysCallable passes }
    ensures is { (p : ℕ → Bool) → ((b : ℕ) (r : Bool) → F.post passes b r → r ≡ p b) → result ≡ prefix_len p s.now }
    ensures within { result ≤ length s.now }
{
    s.iter().take_while(|b| passes(**b)).count()
}
