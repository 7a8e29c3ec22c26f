// Which handles can be taken in.
ghost use Rattle.std.specs.Prelude.{◌≡◌};
ghost use Rattle.run.specs.Calls.{valid_handles};

use store::store::Store;

// The handles before the first that is not valid. They are looked at before anything is built: what a line builds makes no handle
// valid that was passed to it.
pub(crate) fn valid<'h, S: Store>(store: &S, handles: &'h [u32]) -> &'h [u32]
    ensures { result.now ≡ valid_handles (S.semantics.means store.now) handles.now }
{
    for (i, handle) in handles.iter().enumerate() {
        if store.shape(*handle).is_err() {
            return &handles[..i];
        }
    }
    handles
}
