// What holds of every grid.
ghost use Rattle.surf_lattice.specs.Laws.{HasDegrees, ListsAdjacent, NeighboursInside, NeighboursApart, NeighboursDiffer, IsSymmetric, NearDiffer, NeighboursColoured, DirectionsDiffer};

/// The laws of grids. They hold for each kind, with and without joined sides.
pub fn grid_laws()
    ensures degrees { HasDegrees }
    ensures listed { ListsAdjacent }
    ensures inside { NeighboursInside }
    ensures apart { NeighboursApart }
    ensures different { NeighboursDiffer }
    ensures symmetric { IsSymmetric }
    ensures near { NearDiffer }
    ensures coloured { NeighboursColoured }
    ensures directions { DirectionsDiffer }
{}
