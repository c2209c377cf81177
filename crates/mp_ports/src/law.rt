//! The law of appends: a call that does nothing, whose contract is the law.

ghost use Rattle.mp_ports.specs.Folder.{AppendsFollow};

/// Several appends in a row are one append of the whole, for any folder.
pub fn appends_follow()
    ensures { AppendsFollow }
{}
