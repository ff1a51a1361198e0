//! How often each key stands in a list.

ghost use Rattle.std.specs.Prelude.{◌≡◌, ◌≤◌, ◌<◌, length, IfOk, OnOk};
ghost use Rattle.std.specs.List.{All};
ghost use Rattle.std.specs.Map.{values_of};
ghost use Rattle.vfs_model.specs.Holders.{count_one, counted};

use std::alloc::Global;
use std::collections::BTreeMap;
use vfs_base::{List, NoMemory};

/// How often each key stands in the list, in the order of keys.
pub fn counted<K: Ord + Drop>(alloc: Global, keys: List<K>) -> Result<BTreeMap<K, u32>, NoMemory>
    requires { length keys ≤ 4294967295 }
    ensures { IfOk result (λ counts. counts.entries ≡ counted K.cmp keys) }
{
    let mut counts = BTreeMap::new(alloc);
    for key in keys.into_vec() {
        count_one(&mut counts, key)?;
    }
    Ok(counts)
}

// One more of the key.
#[tactic(auto, using(crate::proofs::Counts::counting))]
fn count_one<K: Ord + Drop>(counts: &mut BTreeMap<K, u32>, key: K) -> Result<(), NoMemory>
    requires { All (λ count. count < 4294967295) (values_of counts.old.entries) }
    ensures { OnOk result (counts.new.entries ≡ count_one K.cmp counts.old.entries key) }
{
    let before = counts.get(&key).copied().unwrap_or(0);
    counts.insert(key, before + 1)?;
    Ok(())
}
