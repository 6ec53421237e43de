// Edges of a port's pins.
#![tactic(auto)]

ghost use Rattle.std.specs.Prelude.{◌≡◌};
ghost use Rattle.sh_edges.specs.Edges.{edges_of};

// The bits of a port that have an edge: old pins, new pins, control (0 input), direction (0 falling, 1 rising).
// A pin falls where the old pins have a 1 and neither the new pins nor control do; it rises where it falls with both turned
// over. No other direction has edges.
pub fn edges(old: u8, new: u8, control: u8, rising: u8) -> u8
    ensures { result ≡ edges_of old new control rising }
{
    if rising > 1 {
        return 0;
    }
    let turned = 15 * rising;
    (old ^ turned) & (((new ^ turned) | control) ^ 15) & 15
}
