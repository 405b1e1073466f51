// The bench unit, and its answer to a line.
ghost use Rattle.std.specs.Prelude.{◌≡◌, ◌+◌, ◌^◌, ◌<◌};
ghost use Rattle.model.specs.Bench.{bench_config};
ghost use Rattle.layout.specs.Unit.{config_given};

use super::flow::Flow;
use layout::{CONFIG, UNIT};
use lines::Line;
use model::{Input, Reply};

// Unit 1234 with inputs 30h and 40h, and nothing else.
pub fn configured() -> [u8; CONFIG]
    ensures { config_given result ≡ bench_config }
{
    let mut config = [0u8; CONFIG];
    layout::name_unit(&mut config, 1234);
    layout::equip_input(&mut config, Input(0x30));
    layout::equip_input(&mut config, Input(0x40));
    config
}

// A whole line: the unit, which has no parameters, hears or waits as it says, and how that ended is shown.
pub fn answer(unit: &mut [u8; UNIT], records: &mut [u8], flow: &mut Flow)
    requires { flow.old.number + 1 < 2 ^ 64 }
    ensures { (flow.new.number ≡ flow.old.number + 1) × (flow.new.length ≡ 0) }
{
    let mut heard = [0u8; 999];
    let mut buffer = [0u8; Reply::LONGEST];
    match lines::read_line(flow.line(), &mut heard) {
        Line::Stretch(n) => {
            let made = unit::stretch(unit, &mut [], records, &mut buffer, &heard[..n], 0);
            flow.show(u8::from(made.outcome), unit::reply(&mut buffer, made));
        }
        Line::Time(ms) => {
            let outcome = unit::elapsed(unit, &[], records, ms);
            flow.show(u8::from(outcome), &[]);
        }
        Line::Other => flow.show_other(),
    }
}
