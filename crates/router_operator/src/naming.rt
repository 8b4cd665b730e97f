//! The one router that all threads of a program call.

use std::marker::Brand;

/// Which router it is that threads call. What one thread hands another is of that router, as its type says.
pub trait Naming {
    ghost use Rattle.slot_lock.specs.Passes.{RouterView};

    ghost router: { RouterView };
}

impl Naming for Brand {
    ghost use Rattle.router_operator.specs.Names.{nobodys};

    ghost router = { nobodys };
}
