// The order of hits in a bar: by sound, then step, whatever their velocities.
ghost use Rattle.std.specs.Prelude.{Option, ◌≡◌};
ghost use Rattle.pad_map.specs.Rules.{comes_after};

use pad_map::Key;

// Whether a hit comes behind the one before it; the first follows none.
pub fn follows(previous: Option<Key>, hit: Key) -> bool
    ensures { result ≡ comes_after previous hit }
{
    previous.is_none_or(|before| before < hit)
}
