// The ratios and periods that a mode register chooses.
#![tactic(auto)]

ghost use Rattle.std.specs.Prelude.{◌≡◌};
ghost use Rattle.sh_periods.specs.Periods.{ratio_of, base_ratio_of, period_of};

const RATIOS: [u16; 8] = [2048, 512, 128, 32, 8, 4, 2, 1];

const BASE_RATIOS: [u8; 4] = [1, 4, 8, 16];

const PERIODS: [u16; 8] = [4096, 1024, 256, 128, 64, 16, 4, 1];

// Timer0's ratio by $002; 1 for pin counting. This and the two below differ in table and index, which is all that their line says.
#[tactic(auto, unfolding(crate::specs::Periods::ratio_of, crate::specs::Periods::ratios))]
pub fn ratio(mode: u8) -> u16
    ensures { result ≡ ratio_of mode }
{
    RATIOS[mode as usize % 8]
}

// The base timer's ratio by $003.
#[tactic(auto, unfolding(crate::specs::Periods::base_ratio_of, crate::specs::Periods::base_ratios))]
pub fn base_ratio(mode: u8) -> u8
    ensures { result ≡ base_ratio_of mode }
{
    BASE_RATIOS[mode as usize % 4]
}

// The watchdog's period by $01E.
#[tactic(auto, unfolding(crate::specs::Periods::period_of, crate::specs::Periods::periods))]
pub fn period(control: u8) -> u16
    ensures { result ≡ period_of control }
{
    PERIODS[control as usize % 8]
}
