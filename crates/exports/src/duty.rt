// Rolling stock duties for C.
ghost use Rattle.rules.specs.Promises.{ChecksDuties};
ghost use Rattle.exports_numbers.specs.Duties.{duties_numbers};
ghost use Rattle.exports_numbers.specs.Exported.{Exported};

use duties::entry;
use exports_numbers::{Numbers, duties as numbers};

pub fn wagontulip_duties(text: &[u8], nodes: &mut [u32], balance: &mut [i32], answer: &mut Numbers)
    ensures { Exported (λ r. ChecksDuties text.now nodes.old balance.old r nodes.new balance.new) duties_numbers answer.new }
{
    let told = entry::check_duties(text, nodes, balance);
    *answer = numbers::of_duties(told);
}
