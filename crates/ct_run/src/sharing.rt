//! An instance is shared.
ghost use Rattle.std.specs.Prelude.{◌≡◌, IfOk};
ghost use Rattle.std.specs.Arc.{arc_value};

use ct_instance::Instance;
use std::alloc::{AllocError, Global};
use std::sync::Arc;

/// The instance, where many can hold it.
pub fn shared(alloc: Global, inst: Instance) -> Result<Arc<Instance>, AllocError>
    ensures { IfOk result (λ made. arc_value made ≡ inst) }
{
    match Arc::new(alloc, inst) {
        Ok(made) => Ok(made),
        Err(_) => Err(AllocError),
    }
}
