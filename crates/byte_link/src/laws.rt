//! Laws of a byte link. No code.
ghost use Rattle.std.specs.Prelude.{ℕ, List, [], ◌≡◌, map};
ghost use Rattle.std.specs.List.{AllByRecursion, concat};
ghost use Rattle.swp_base.specs.DataUnits.{IsLpdu};
ghost use Rattle.byte_link.specs.Units.{unit_of, unit_said};
ghost use Rattle.byte_link.specs.Reading.{unit_under_way, units};
ghost use Rattle.byte_link.specs.Written.{IsUnit, units_behind};
ghost use Rattle.byte_link.specs.declared.unit.Unit.TheVariants.{Frame};

/// Units one directly behind another are read, each as it is alone, whatever came before: ticks, LPDUs, and what stands behind
/// a unit that its CRC refuses. So the units of LPDUs are read as these LPDUs.
pub fn units_are_read_one_behind_another()
    ensures each { (seen : List ℕ) (written : List (List ℕ)) → unit_under_way seen ≡ [] → AllByRecursion IsUnit written
        → units_behind seen (concat written) ≡ map unit_said written }
    ensures lpdus { (lpdus : List (List ℕ)) → AllByRecursion IsLpdu lpdus
        → units (concat (map unit_of lpdus)) ≡ map Frame lpdus }
{}
