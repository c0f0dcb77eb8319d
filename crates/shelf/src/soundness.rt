// Whether a shelf is sound, and where it is at fault, in one walk. Nobody may have two.
ghost use Rattle.std.specs.Prelude.{◌≡◌, not, is_some};
ghost use Rattle.shelf.specs.Sound.{sound, first_unsound};

use crate::spot::Spot;
use crate::walk::Walk;
use bits::OwnerFilter;

// The first place of the walk at which something is at fault: no block or dead cell stands there, it isn't
// tidy, or the owner of a block in use was met before. None just where the shelf is sound.
pub fn first_unsound(shelf: &[u32]) -> Option<usize>
    ensures place { result ≡ first_unsound shelf.now }
    ensures test { is_some result ≡ not (sound shelf.now) }
{
    let mut owners = OwnerFilter::new();
    for item in Walk::new(shelf) {
        let spot = Spot { shelf, item };
        if !spot.is_sound(&owners) {
            return Some(item.place());
        }
        spot.note_owner(&mut owners);
    }
    None
}

// Whether a shelf is sound.
pub fn is_sound(shelf: &[u32]) -> bool
    ensures { result ≡ sound shelf.now }
{
    first_unsound(shelf).is_none()
}
