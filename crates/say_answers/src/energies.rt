// The energies of an accepted solution: the exact kilojoules, and beside them what people count in.
use crate::say;
use rules::figures::{Figures, Peak};

fn peak(rt: &impl Print, name: &[u8], h: u32, p: Peak) {
    say::text(rt, name);
    say::peak(rt, h, p);
    say::text(rt, b"\n");
}

// The fluctuation is the greatest less the least, which is never below 0.
fn totals(rt: &impl Print, g: Figures) {
    say::sentence(
        rt,
        b"before recuperation: %n kJ, %e MWh\n\
          drawn: %n kJ, %e MWh\n\
          lost: %n kJ, %e MWh\n\
          fluctuation: %n kW\n",
        &[
            g.before,
            g.before,
            g.drawn,
            g.drawn,
            g.lost,
            g.lost,
            energy_sign::above(g.fluctuation),
        ],
    );
}

// H says when a last, shorter quarter ends.
pub fn tell(rt: &impl Print, h: u32, g: Figures) {
    totals(rt, g);
    peak(rt, b"peak quarter before recuperation: ", h, g.peaks.before);
    peak(rt, b"peak quarter drawn: ", h, g.peaks.drawn);
}
