// Drives a channel through every state and every cause, and prints each call's answer, the channel and the rows.
// The module `script` says how a step is written; each line is a script, and the comment above has their numbers.
use super::script;

// What a channel goes through.
// 1 and 2: Off, Powerup (at its deadline it is not late), Powered (a reset and the watchdog change nothing),
//    Enabled, a status, Powerdown, Off.
// 3: Each trip, and each way out of it; a reset where the settings ask for Off.
// 4 to 6: Each fault. A blocked channel stays blocked by its first fault, and in Enabled no trip is looked
//    for after a fault.
pub fn states() {
    script::each(
        b"S000.g- U000.g- u200.g- u201.g- r202.g- u202wg- u203.g- r204.g- u205.h- t206oh-\n\
        S000.g- U000.g- u201.g- u202.g- b206.g- u706.g- u707.g- b708.g-\n\
        S000.g- U000.g- u201.g- u202.g- u203.s- r204.g- u205.g- u206qg- n207.gP n208.g- u209.g- u210fg- \
        n211.gO u712.g- r713.g-\n\
        S000.g- u001Hg- u002hg- u003ag- r004.g-\n\
        S000.g- u001Cg- u002cg-\n\
        S000.g- U000.g- u201.g- u202.g- u203ag-\n",
    );
}

// What is refused, and what fails.
// 1: Settings that are refused are stored all the same: the level, the chip, the bias.
// 2: Answer 13: the ad5627's opening, the flag, the mcp3221.
// 3: Causes 1, 2 and 4 at the start.
// 4 to 6: Cause 3 in an update and in a status, and cause 1 where a transfer of an update, a standby, a
//    status or new settings fails.
// 7 and 8: Causes 5, 6 and 1 on enabling, and a threshold below the lowest, which is not enabled.
pub fn failures() {
    script::each(
        b"S000.g- n001.gH n002.0M n003.gM n004.g- n005.gB n205.gD\n\
        S000.A- S000.n- S000.C-\n\
        S000.0- S000.4- S000.6- S000.9- S000.a- S000.gH S000.D- S000.E-\n\
        S000.g- U000.g- u201.g- u202.g- u203x0- u203.0-\n\
        S000.g- U000.g- u201.g- u202.g- u203.0-\n\
        S000.g- U000.g- b001.0- S000.g- t001.0- S000.g- t001xg- S000.g- t001.4- S000.g- n001.0E\n\
        S000.gL U000.g- u201.g- u202.g- S000.gl U000.g- u201.g- u202.g-\n\
        S000.gB U000.g- u201.g- u202.g- S000.g- U000.g- u201.g- u202.0-\n",
    );
}
