// Rolling stock duties for C.
ghost use Rattle.rules.specs.Promises.{ChecksDuties};
ghost use Rattle.exports_numbers.specs.Duties.{duties_numbers};
ghost use Rattle.exports_numbers.specs.Exported.{Exported};

use exports::duty;
use exports_numbers::Numbers;

#[unsafe(no_mangle)]
pub extern "C" fn wagontulip_duties(
    text: &[u8],
    nodes: &mut [u32],
    balance: &mut [i32],
    answer: &mut Numbers,
)
    ensures { Exported (λ r. ChecksDuties text.now nodes.old balance.old r nodes.new balance.new) duties_numbers answer.new }
{
    duty::wagontulip_duties(text, nodes, balance, answer);
}
