// The search begins with each leg at its soonest offer.
ghost use Rattle.earliest_search.specs.Starting.{Nominal, First, Startable, Started, Readable, Begun};

use rules::sizes::Leg;

// The place of a leg's soonest offer with its nominal's travel time. There is one: the nominal is listed.
fn first_place(configurations: &[u32], leg: Leg) -> usize
    requires { Nominal leg }
    ensures { First configurations.now leg result }
{
    let at = leg.first as usize + leg.nominal as usize;
    let nominal = tables_views::configuration_at(configurations, at);
    earliest_offer::soonest_of(configurations, leg, nominal.travel, 0).unwrap()
}

fn first_choice(legs: &mut [u32], configurations: &[u32], row: usize)
    requires { Startable legs.old row }
    ensures { Started legs.old configurations.now row legs.new }
{
    let leg = tables_views::leg_at(legs, row);
    let place = first_place(configurations, leg);
    let most = Leg::MOST_CONFIGURATIONS;
    earliest_offer::put_last(legs, row, leg.nominal + most * place as u32);
}

// Of `n` rows.
pub fn first_choices(legs: &mut [u32], n: usize, configurations: &[u32])
    requires { Readable n legs.old }
    ensures { Begun n legs.old configurations.now legs.new }
{
    for i in 0..n {
        first_choice(legs, configurations, i);
    }
}
