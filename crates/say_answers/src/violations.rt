// Violated: the inequality that fails first, both legs with their times, and what was needed.
use crate::say;
use rules::answers::Violation;
use rules::kinds::Kind;
use say_words::needs;
use say_words::needs::Bound;

// A leg and the choice that was made for it.
fn leg_and_choice(rt: &impl Print, legs: &[u32], choices: &[u32], row: usize) {
    let leg = tables_views::leg_at(legs, row);
    let choice = tables_views::configuration_at(choices, row);
    let departure = choice.departure as u64;
    say::sentence(
        rt,
        b"leg %n departs at %t and arrives at %t\n",
        &[leg.id as u64, departure, departure + choice.travel as u64],
    );
}

// The choice as it stands in a file, since times alone would not show another profile; and what was needed.
fn chosen(rt: &impl Print, choices: &[u32], row: usize) {
    let choice = tables_views::configuration_at(choices, row);
    say::sentence(
        rt,
        b"chosen: %n_%n_%n\nneeded: a configuration that the draft lists for this leg\n",
        &[
            choice.departure as u64,
            choice.travel as u64,
            choice.profile as u64,
        ],
    );
}

fn not_offered(rt: &impl Print, v: Violation, legs: &[u32], choices: &[u32]) {
    let row = v.position as usize;
    say::sentence(rt, b", inequality 0\nfile: %f\n", &[v.file as u64]);
    leg_and_choice(rt, legs, choices, row);
    chosen(rt, choices, row);
}

// What was needed of the second leg. No inequality asks for an earlier arrival.
fn asked(rt: &impl Print, id: u32, bound: Bound, short: u32) {
    let id = id as u64;
    let short = short as u64;
    match bound {
        Bound::ArrivesFrom(second) => say::sentence(
            rt,
            b"needed: leg %n arrives at %t or later; it falls short by %n s\n",
            &[id, second, short],
        ),
        Bound::DepartsBy(second) => say::sentence(
            rt,
            b"needed: leg %n departs at %t or earlier; it falls short by %n s\n",
            &[id, second, short],
        ),
        Bound::DepartsFrom(second) => say::sentence(
            rt,
            b"needed: leg %n departs at %t or later; it falls short by %n s\n",
            &[id, second, short],
        ),
    }
}

// The inequality, and the solution that does not keep it.
fn inequality(rt: &impl Print, v: Violation) {
    say::sentence(
        rt,
        b" of %l, inequality %n: ",
        &[v.kind as u64, v.inequality as u64],
    );
    say::formula(rt, v.kind, v.inequality);
    say::sentence(rt, b"\nfile: %f\n", &[v.file as u64]);
}

fn unkept(rt: &impl Print, v: Violation, legs: &[u32], constraints: &[u32], choices: &[u32]) {
    inequality(rt, v);
    let record = say_counts::record_at(constraints, v.kind as u32, v.position);
    let second = record.second as usize;
    leg_and_choice(rt, legs, choices, record.first as usize);
    leg_and_choice(rt, legs, choices, second);
    let leg = tables_views::leg_at(legs, second);
    let bound = needs::needed(v, tables_views::configuration_at(choices, second));
    asked(rt, leg.id, bound, v.shortfall);
}

// The tables as the checker left them.
pub fn violated(rt: &impl Print, v: Violation, legs: &[u32], constraints: &[u32], choices: &[u32]) {
    let kind = v.kind as u64;
    say::sentence(
        rt,
        b"violated: %k (kind %n), position %n",
        &[kind, kind, v.position as u64],
    );
    if v.kind == Kind::NOT_OFFERED {
        not_offered(rt, v, legs, choices);
    } else {
        unkept(rt, v, legs, constraints, choices);
    }
}
