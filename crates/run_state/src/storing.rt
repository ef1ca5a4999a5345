//! Numbers that are stored one after another.

ghost use Rattle.std.specs.Prelude.{◌≡◌, OnOk, OnErr};
ghost use Rattle.pml_store.specs.Writing.{before};
ghost use Rattle.pml_value.specs.Storing.{stored_all, StoresSome};
ghost use Rattle.run_state.specs.Storing.{AreIn};

use pml_store::store::Store;
use promela_run::goes::Goes;
use std::alloc::AllocError;

/// Stores numbers from left to right. Want of memory leaves those that are stored by then.
pub fn store_all(store: &mut Store, numbers: &[Goes]) -> Result<(), AllocError>
    requires { AreIn store.old.frames numbers.now }
    ensures ok { OnOk result (store.new ≡ stored_all store.old numbers.now) }
    ensures err { OnErr result (StoresSome store.old store.new numbers.now) }
    ensures past { before store.new ≡ before store.old }
{
    for one in numbers {
        store.set(one.place, one.number)?;
    }
    Ok(())
}
