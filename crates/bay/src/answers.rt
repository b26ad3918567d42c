// Every call and every answer, in the order of their tests. The module `script` says how a step is written; each
// line is a script, and the comment above has their numbers.
use super::script;

// Answers 1 to 8.
// 1 to 3: Bench case 13: a log of 319 bytes and of 320, replies of 134 bytes and of 135. Then counts that
//    leave 19 rows free, that are past the log's end, and the largest.
// 4: 1: no slot above the seventh, whatever is asked.
// 5: 2: a request of an empty slot.
// 6: 3: a request of a halted slot, which may be started anew. 4: a start of a channel.
// 7: All that can be wrong with a status at once, mended from the first test to the last; and a start of a
//    channel with neither log nor replies.
pub fn refused() {
    script::each(
        b"=l319.. S000.g- =l320.. S000.g-\n\
        =r134.. S000.g- =r135.. S000.g-\n\
        =l320.. =u001.. S000.g- =u021.. S000.g- =m..... S000.g- =u000.. S000.g- U001.g-\n\
        =s008.. S000.g- U000.g- u000.g- r000.g- b000.g- n000.g- t000.g- =s255.. S000.g- =s007.. S000.g- \
        =a.....\n\
        U000.g- u000.g- r000.g- b000.g- n000.g- t000.g- S000.n- u001.g-\n\
        S000.a- U000.g- u000.g- r000.g- b000.g- n000.g- t000.g- S001.g- S002.g-\n\
        =s009.. =l319.. =r134.. =n006.. t000Ng- =s005.. t000Ng- =l999.. =r135.. S000.a- =l319.. =r134.. \
        t001Ng- =l999.. =r135.. S001.g- =l319.. =r134.. t002Ng- S002.g- =l999.. t003Ng- =r135.. t004Ng- \
        =n007.. t005Ng- t006.g-\n",
    );
}

// What a call looks at, answers 9 to 14, and eight channels.
// 1: 7 is of a status alone, and 8 of an update and a status alone: a start, a startup, a reset, a standby
//    and settings look at neither.
// 2: 9 to 14: no such transition, a guard that is false, a value out of range, a chip that fails, a module
//    that is absent, a halt.
// 3: Eight channels. What is done with one leaves the other seven.
pub fn answered() {
    script::each(
        b"S000Ng- =n000.. r000Ng- u001.g- t001.g- u002Ng- u002Ig- u002ig- =n008.. t002Ng- t002Ig- t002ig- \
        b003Ng- n504Ng- u705xg-\n\
        S000.n- S000.gO r001.g- n002.g- r003.g- n004.gH n005.0M n006.g- u203.g- u204.g- n205.gO n206.g- \
        b207.0- r208.g-\n\
        =s000.. S000.g- =s001.. S000.g- =s002.. S000.a- =s003.. S000.g- =s004.. S000.n- =s006.. S000.g- \
        =s007.. S000.g- =a..... =s001.. U001.g- =s003.. U001.g- =s006.. u001hg- =a..... =s001.. u202.g- \
        u203.g- =s003.. u202.0- u203.0- =s007.. n203.gM =a.....\n",
    );
}
