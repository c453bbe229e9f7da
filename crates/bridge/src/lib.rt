// Questions for a program in another language that measures them: a sheet is filled, and one question is asked of it so many times,
// each time in cleared memory. No other crate uses it.
#![tactic(auto)]

ghost use Rattle.bridge.specs.Filled.{filled_view};
ghost use Rattle.bridge.specs.Answers.{Asked};
ghost use Rattle.bridge.specs.Questions.{LooseHanded, StrictHanded, RatioHanded};

use crate::answer::Answer;
use crate::questions::{loose, ratio, strict};
use listsheet::ListSheet;
use model::thresholds::Thresholds;
use sheet::bitsheet::BitSheet;

mod answer;
mod asking;
mod filling;
mod questions;

#[unsafe(no_mangle)]
pub extern "C" fn bits_loose(
    records: &[u8],
    pairs: &[[u8; 2]],
    t1: u32,
    t2: u32,
    times: u32,
    answer: &mut Answer,
)
    ensures { Asked times (LooseHanded (filled_view 4032 records.now pairs.now) (record { t1 = t1; t2 = t2 })) answer.old answer.new }
{
    loose(
        BitSheet::new(),
        records,
        pairs,
        Thresholds { t1, t2 },
        times,
        answer,
    );
}

#[unsafe(no_mangle)]
pub extern "C" fn bits_strict(
    records: &[u8],
    pairs: &[[u8; 2]],
    t1: u32,
    t2: u32,
    times: u32,
    answer: &mut Answer,
)
    ensures { Asked times (StrictHanded (filled_view 4032 records.now pairs.now) (record { t1 = t1; t2 = t2 })) answer.old answer.new }
{
    strict(
        BitSheet::new(),
        records,
        pairs,
        Thresholds { t1, t2 },
        times,
        answer,
    );
}

#[unsafe(no_mangle)]
pub extern "C" fn bits_ratio(records: &[u8], pairs: &[[u8; 2]], times: u32, answer: &mut Answer)
    ensures { Asked times (RatioHanded (filled_view 4032 records.now pairs.now)) answer.old answer.new }
{
    ratio(BitSheet::new(), records, pairs, times, answer);
}

#[unsafe(no_mangle)]
pub extern "C" fn list_loose(
    records: &[u8],
    pairs: &[[u8; 2]],
    t1: u32,
    t2: u32,
    times: u32,
    answer: &mut Answer,
)
    ensures { Asked times (LooseHanded (filled_view 512 records.now pairs.now) (record { t1 = t1; t2 = t2 })) answer.old answer.new }
{
    loose(
        ListSheet::new(),
        records,
        pairs,
        Thresholds { t1, t2 },
        times,
        answer,
    );
}

#[unsafe(no_mangle)]
pub extern "C" fn list_strict(
    records: &[u8],
    pairs: &[[u8; 2]],
    t1: u32,
    t2: u32,
    times: u32,
    answer: &mut Answer,
)
    ensures { Asked times (StrictHanded (filled_view 512 records.now pairs.now) (record { t1 = t1; t2 = t2 })) answer.old answer.new }
{
    strict(
        ListSheet::new(),
        records,
        pairs,
        Thresholds { t1, t2 },
        times,
        answer,
    );
}

#[unsafe(no_mangle)]
pub extern "C" fn list_ratio(records: &[u8], pairs: &[[u8; 2]], times: u32, answer: &mut Answer)
    ensures { Asked times (RatioHanded (filled_view 512 records.now pairs.now)) answer.old answer.new }
{
    ratio(ListSheet::new(), records, pairs, times, answer);
}
