//! The laws of whole files, each the contract of a function that does nothing.
ghost use Rattle.std.specs.Prelude.{◌≡◌, ℕ, List, Option};
ghost use Rattle.flp_syntax.specs.declared.syntax.Params.{Params};
ghost use Rattle.flp_batch.specs.declared.fault.EngineFault.{EngineFault};
ghost use Rattle.flp_batch.specs.Format.{Format, SettingOf};
ghost use Rattle.flp_batch.specs.File.{HasSetting, IsFile, IsFault};

/// A file of either format has one setting, or it has one first fault, and not both.
pub fn one_answer()
    ensures setting { (format : Format) (bytes : List ℕ) (params others : Option Params) (setting other : SettingOf format)
        → HasSetting format bytes params setting → HasSetting format bytes others other → (params ≡ others) × (setting ≡ other) }
    ensures fault { (format : Format) (bytes : List ℕ) (fault other : EngineFault)
        → IsFault format bytes fault → IsFault format bytes other → fault ≡ other }
    ensures never_both { (format : Format) (bytes : List ℕ) (params : Option Params) (setting : SettingOf format) (fault : EngineFault)
        → IsFile format bytes params setting → IsFault format bytes fault → ⊥ }
{
    flp_load::laws::one_answer();
}
