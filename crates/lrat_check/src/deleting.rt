//! Deletions.

ghost use Rattle.std.specs.Prelude.{◌≡◌, true, false};
ghost use Rattle.cnf_form.specs.Logs.{DeletionPasses, after_deletion};
ghost use Rattle.lrat_check.specs.Store.{live_of};
ghost use Rattle.lrat_check.specs.Failing.{DeletionFails};

use crate::store::Store;

/// Takes the clauses of the ids away, up to the first id that isn't live, and tells whether all are.
pub fn delete_all(store: &mut Store, ids: &[u64]) -> bool
    ensures yes { result ≡ true → DeletionPasses (live_of store.old) ids.now }
    ensures no { result ≡ false → DeletionFails (live_of store.old) ids.now }
    ensures live { result ≡ true → live_of store.new ≡ after_deletion (live_of store.old) ids.now }
{
    for id in ids {
        if !store.remove(*id) {
            return false;
        }
    }
    true
}
