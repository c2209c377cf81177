//! Single elements, read as a table reads them.
ghost use Rattle.std.specs.Prelude.{◌≡◌, ◌-◌, ◌<◌, ◌≤◌, ◌^◌, ◌≤ℤ◌, length, IfOk, OnOk};
ghost use Rattle.avc_units.specs.Table.{walk, code_of};
ghost use Rattle.avc_units.specs.Elements.{u, flag, ue, ue_upto, se, se_within};
ghost use Rattle.avc_units.specs.Cursor.{Takes};

use crate::Bits;
use crate::bits::signed_of;
use mp_ports::Code;

/// Why bits aren't what a table says.
#[derive(Clone, Copy, Debug, PartialEq, Eq)]
pub enum ElementFail {
    /// The bits don't hold an element, or its value is out of its range.
    Syntax,
    /// What was read is refused for this reason.
    Refused(Code),
}

impl ElementFail {
    /// The reason, where `syntax` is that of a syntax that fails.
    pub fn code(self, syntax: Code) -> Code
        ensures { result ≡ code_of syntax self }
    {
        match self {
            ElementFail::Syntax => syntax,
            ElementFail::Refused(code) => code,
        }
    }
}

impl<'a> Bits<'a> {
    /// An element u(n). `Syntax` where fewer bits are left.
    #[tactic(auto, using(crate::proofs::Walking::walking), unfolding(crate::specs::Elements::u))]
    pub fn read_u(&mut self, n: u32) -> Result<u32, ElementFail>
        requires { n ≤ 32 }
        ensures takes { Takes (walk (u n) self.old) result self.new }
        ensures small { IfOk result (λ v. v < 2 ^ n) }
        ensures shorter { OnOk result (length self.new ≤ length self.old) }
    {
        match self.take(n) {
            Some(value) => Ok(value),
            None => Err(ElementFail::Syntax),
        }
    }

    /// An element u(1): whether it is set. `Syntax` where no bit is left.
    #[tactic(auto, using(crate::proofs::Walking::walking), unfolding(crate::specs::Elements::flag))]
    pub fn read_flag(&mut self) -> Result<bool, ElementFail>
        ensures takes { Takes (walk flag self.old) result self.new }
        ensures shorter { OnOk result (length self.new ≤ length self.old) }
    {
        let value = self.read_u(1)?;
        Ok(value == 1)
    }

    /// An element ue(v). `Syntax` where no code is there.
    #[tactic(auto, using(crate::proofs::Walking::walking), unfolding(crate::specs::Elements::ue))]
    pub fn read_ue(&mut self) -> Result<u32, ElementFail>
        ensures takes { Takes (walk ue self.old) result self.new }
        ensures small { IfOk result (λ v. v < 2 ^ 32 - 1) }
        ensures shorter { OnOk result (length self.new < length self.old) }
    {
        match self.ue() {
            Some(value) => Ok(value),
            None => Err(ElementFail::Syntax),
        }
    }

    /// An element ue(v) of at most that value. `Syntax` where no such code is there.
    #[tactic(auto, using(crate::proofs::Walking::walking), unfolding(crate::specs::Elements::ue_upto))]
    pub fn read_ue_upto(&mut self, most: u32) -> Result<u32, ElementFail>
        ensures takes { Takes (walk (ue_upto most) self.old) result self.new }
        ensures small { IfOk result (λ v. v ≤ most) }
        ensures shorter { OnOk result (length self.new < length self.old) }
    {
        let value = self.read_ue()?;
        if most < value {
            return Err(ElementFail::Syntax);
        }
        Ok(value)
    }

    /// An element se(v). `Syntax` where no code is there.
    #[tactic(auto, using(crate::proofs::Walking::walking), unfolding(crate::specs::Elements::se))]
    pub fn read_se(&mut self) -> Result<i32, ElementFail>
        ensures takes { Takes (walk se self.old) result self.new }
        ensures shorter { OnOk result (length self.new < length self.old) }
    {
        let code = self.read_ue()?;
        Ok(signed_of(code))
    }

    /// An element se(v) from `low` to `high`. `Syntax` where no such code is there.
    #[tactic(auto, using(crate::proofs::Walking::walking), unfolding(crate::specs::Elements::se_within))]
    pub fn read_se_within(&mut self, low: i32, high: i32) -> Result<i32, ElementFail>
        ensures takes { Takes (walk (se_within low high) self.old) result self.new }
        ensures from_low { IfOk result (λ v. low ≤ℤ v) }
        ensures to_high { IfOk result (λ v. v ≤ℤ high) }
        ensures shorter { OnOk result (length self.new < length self.old) }
    {
        let value = self.read_se()?;
        if value < low || high < value {
            return Err(ElementFail::Syntax);
        }
        Ok(value)
    }
}
