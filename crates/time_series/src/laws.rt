//! Laws of a series.
ghost use Rattle.std.specs.Prelude.{◌≡◌, List, map};
ghost use Rattle.std.specs.List.{sum};
ghost use Rattle.time_series.specs.Points.{Mark, capped, points_of};

/// The points of a series add up to all its amounts, whatever their width.
pub fn points_add_up()
    ensures { (marks : List Mark) → capped (sum (points_of marks)) ≡ capped (sum (map (λ mark. mark.amount) marks)) }
{}
