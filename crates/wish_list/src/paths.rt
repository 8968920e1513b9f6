// The paths of a wish list, one behind the other, each ended by a zero byte.
ghost use Rattle.std.specs.Prelude.{◌≡◌, ◌∷◌, ◌+◌, ◌<◌, length, drop};
ghost use Rattle.wish_list.specs.Paths.{paths_in};

use table::text_length;

/// The first path in the bytes, without its zero byte.
pub fn first_path(bytes: &[u8]) -> &[u8]
    requires { 0 < length (paths_in bytes.now) }
    ensures first { let rest = drop (length result.now + 1) bytes.now in
        paths_in bytes.now ≡ result.now ∷ paths_in rest }
    ensures within { length result.now < length bytes.now }
{
    &bytes[..text_length(bytes, 0)]
}
