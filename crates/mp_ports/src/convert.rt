//! What `?` makes of one answer of failure in a function that answers another.

use crate::{Bad, Fail, NoMemory, PortFault, ReadFail};
use std::alloc::{AllocError, AllocFailed};

impl From<AllocError> for NoMemory {
    fn from(_error: AllocError) -> NoMemory {
        NoMemory
    }
}

impl<T: Drop> From<AllocFailed<T>> for NoMemory {
    fn from(_failed: AllocFailed<T>) -> NoMemory {
        NoMemory
    }
}

impl From<AllocError> for Fail {
    ghost use Rattle.std.specs.Prelude.{◌≡◌};
    ghost use Rattle.mp_ports.specs.declared.fault.Fail.TheVariants.{NoMemory};

    ghost from_gives = { λ _ fail. fail ≡ NoMemory };

    fn from(_error: AllocError) -> Fail {
        Fail::NoMemory
    }
}

impl<T: Drop> From<AllocFailed<T>> for Fail {
    ghost use Rattle.std.specs.Prelude.{◌≡◌};
    ghost use Rattle.mp_ports.specs.declared.fault.Fail.TheVariants.{NoMemory};

    ghost from_gives = { λ _ fail. fail ≡ NoMemory };

    fn from(_failed: AllocFailed<T>) -> Fail {
        Fail::NoMemory
    }
}

impl From<NoMemory> for Fail {
    ghost use Rattle.std.specs.Prelude.{◌≡◌};
    ghost use Rattle.mp_ports.specs.declared.fault.Fail.TheVariants.{NoMemory};

    ghost from_gives = { λ _ fail. fail ≡ NoMemory };

    fn from(_error: NoMemory) -> Fail {
        Fail::NoMemory
    }
}

impl From<Bad> for Fail {
    ghost use Rattle.std.specs.Prelude.{◌≡◌};
    ghost use Rattle.mp_ports.specs.declared.fault.Fail.TheVariants.{Bad};

    ghost from_gives = { λ bad fail. fail ≡ Bad bad };

    fn from(bad: Bad) -> Fail {
        Fail::Bad(bad)
    }
}

impl From<AllocError> for ReadFail {
    ghost use Rattle.std.specs.Prelude.{◌≡◌};
    ghost use Rattle.mp_ports.specs.declared.fault.ReadFail.TheVariants.{NoMemory};

    ghost from_gives = { λ _ fail. fail ≡ NoMemory };

    fn from(_error: AllocError) -> ReadFail {
        ReadFail::NoMemory
    }
}

impl<T: Drop> From<AllocFailed<T>> for ReadFail {
    ghost use Rattle.std.specs.Prelude.{◌≡◌};
    ghost use Rattle.mp_ports.specs.declared.fault.ReadFail.TheVariants.{NoMemory};

    ghost from_gives = { λ _ fail. fail ≡ NoMemory };

    fn from(_failed: AllocFailed<T>) -> ReadFail {
        ReadFail::NoMemory
    }
}

impl From<NoMemory> for ReadFail {
    ghost use Rattle.std.specs.Prelude.{◌≡◌};
    ghost use Rattle.mp_ports.specs.declared.fault.ReadFail.TheVariants.{NoMemory};

    ghost from_gives = { λ _ fail. fail ≡ NoMemory };

    fn from(_error: NoMemory) -> ReadFail {
        ReadFail::NoMemory
    }
}

impl From<Bad> for ReadFail {
    ghost use Rattle.std.specs.Prelude.{◌≡◌};
    ghost use Rattle.mp_ports.specs.declared.fault.ReadFail.TheVariants.{Bad};

    ghost from_gives = { λ bad fail. fail ≡ Bad bad };

    fn from(bad: Bad) -> ReadFail {
        ReadFail::Bad(bad)
    }
}

/// A failed call is a failed read: no function that writes answers a `ReadFail`.
impl From<PortFault> for ReadFail {
    ghost use Rattle.std.specs.Prelude.{◌≡◌};
    ghost use Rattle.mp_ports.specs.declared.fault.ReadFail.TheVariants.{ReadFault};

    ghost from_gives = { λ _ fail. fail ≡ ReadFault };

    fn from(_fault: PortFault) -> ReadFail {
        ReadFail::ReadFault
    }
}

impl From<Fail> for ReadFail {
    ghost use Rattle.std.specs.Prelude.{◌≡◌};
    ghost use Rattle.mp_ports.specs.Gives.{read_fail};

    ghost from_gives = { λ fail read. read ≡ read_fail fail };

    fn from(fail: Fail) -> ReadFail {
        match fail {
            Fail::Bad(bad) => ReadFail::Bad(bad),
            Fail::NoMemory => ReadFail::NoMemory,
        }
    }
}
