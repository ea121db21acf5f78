// What numbering the names keeps.
ghost use Rattle.surf_logic.specs.Renamed.{FaultsAreNamed, OrdersAreSound, OrdersAreNamed, OrdersCostTheSame, NamesCostNothing, ValuesAreNamed};

/// What holds of numbered parts holds of the parts over the texts of their names: their faults, the
/// order of their equations, their cost and what they evaluate to.
pub fn naming_laws()
    ensures faults { FaultsAreNamed }
    ensures sound { OrdersAreSound }
    ensures orders { OrdersAreNamed }
    ensures order_cost { OrdersCostTheSame }
    ensures name_cost { NamesCostNothing }
    ensures values { ValuesAreNamed }
{}
