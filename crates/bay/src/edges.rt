// What the other scripts leave out. The module `script` says how a step is written; each line is a script, and the
// comment above has their numbers.
use super::script;

// At the limits of what is lent and given.
// 1: Replies of 136 bytes and of 999, which is more than any call takes.
// 2 and 3: 5 and 6 of every call, before 8. Then a log whose last row is not whole.
// 4 to 6: A startup, settings, a standby and a reset look at no temperature, and for no fault: no number,
//    failed, too hot, too cold, with the supply's alert.
// 7: A failure by each of three other statuses: at a start, in settings, in an update.
// 8: The highest code of the output's level, at a start and in settings; and an alarm register whose halves
//    have no bit in common.
pub fn limits() {
    script::each(
        b"=r136.. S000.n- =r999.. S000.g- U000.g- u201.g- r202.g- n203.gM t204.g- b205.g-\n\
        S000.g- =l319.. U001Ng- u001Ng- r001Ng- b001Ng- n001Ng- t001Ng- =l999.. =r134.. U001Ng- u001Ng- \
        r001Ng- b001Ng- n001Ng- t001Ng-\n\
        =l335.. =u001.. S000.g- =l336.. S000.g-\n\
        S000Ng- U000Ng- n001NgM b002Ng- u503.g- r504Ng-\n\
        S000xg- U000xg- n001xgM b002xg- u503.g- r504xg-\n\
        S000hg- U000hg- n001agM b002cg- u503.g- r504ag-\n\
        S000.x- S000.y- S000.z- S000.g- n001.xM n002.y- n003.zM U004.g- u205.g- u206.g- u207.y-\n\
        S000.gT =s006.. S000.b- n001.gT\n",
    );
}

// Values, transfers and events that are left.
// 1: The reflected power's level: refused at a start and in settings, rewritten, and all three writes in
//    their order, of which each may fail.
// 2: No number: refused as a level, sent as code 0 as a bias, and never equal to what it was.
// 3: A start with each transfer failing that is left.
// 4 and 5: The bus failing in a startup, a reset, settings, a fault, and in a status.
// 6 to 9: What the table has, and has not, for the events that are left: where nothing but Powered is asked
//    for, the channel is not enabled.
pub fn events() {
    script::each(
        b"S000.gR S000.g- n001.gR n002.gr n003.g- n004.1X n005.g- n006.gX n007.2-\n\
        S000.gN S000.gn U000.g- u201.g- u202.g- n203.gN n204.gn\n\
        S000.1- S000.2- S000.3- S000.5- S000.7- S000.8- S000.B-\n\
        S000.g- U001.0- S000.g- r001.0- S000.g- n001.0- S000.g- u001h0-\n\
        S000.g- t001.1- S000.g- t001.2- S000.g- t001.3-\n\
        S000.gP U000.g- u201.g- u202.g- U203.g- n204.g- u205.g- U206.g- n207.gP b208.g- U209.g- u210hg- \
        U211.g- b212.g- n213.g- n214.gO t215fg- t216ag-\n\
        S000.g- U000.g- u001cg-\n\
        S000.g- U000.g- u201.g- u202ag-\n\
        S000.g- U000.g- u201.g- u202.g- u203fg- u204.g- U205.g- u206.g- u207og- u208hg-\n",
    );
}
