//! The protocols of the library of examples, without their comments.

/// One copy of a line.
pub const MI: &[u8] = b"\
protocol mi version 2;
message get up;
message data down int 4;
message recall down;
message back up int 4;
home {
  var owner node = none;
  var asker node = none;
  var memory int 4 = 0;
  start Unowned;
  state Unowned {
    from any asker ? get goto Give;
  }
  state Give {
    to asker ! data(memory) do owner = asker goto Owned;
  }
  state Owned {
    from any asker ? get goto Recall;
    from owner ? back(memory) do owner = none goto Unowned;
  }
  state Recall {
    to owner ! recall goto Recalled;
    from owner ? back(memory) goto Give;
  }
  state Recalled {
    from owner ? back(memory) goto Give;
  }
}
remote {
  var line int 4 = 0;
  start I;
  state I {
    tau goto Get;
  }
  state Get {
    to home ! get goto Filling;
  }
  state Filling {
    from home ? data(line) goto M;
  }
  state M {
    tau do line = line + 1 goto M;
    tau goto Back;
    from home ? recall goto Back;
  }
  state Back {
    to home ! back(line) goto I;
  }
}
claim atmost 1 in M Back;
";

/// Many readers or one writer, with a directory.
pub const MSI: &[u8] = b"\
protocol msi version 2;
message gets up;
message getx up;
message upgrade up;
message evict up;
message wb up int 2;
message ack up;
message data down int 2;
message datax down int 2;
message granted down;
message late down;
message inv down;
message share down;
message fetch down;
home {
  var asker node = none;
  var owner node = none;
  var victim node = none;
  var sharers set = empty;
  var has int 2 = 0;
  var memory int 2 = 0;
  start Clean;
  state Clean {
    from any asker ? gets goto Fill;
    from any asker ? getx do has = 0 goto Purge;
    from any asker in sharers ? upgrade do sharers = sharers - asker, has = 1 goto Purge;
    from any victim in sharers ? evict do sharers = sharers - victim goto Clean;
  }
  state Fill {
    to asker ! data(memory) do sharers = sharers + asker goto Clean;
  }
  state Purge {
    to any victim in sharers ! inv goto Purging;
    from any victim in sharers ? evict do sharers = sharers - victim goto Purge;
    from any victim in sharers ? upgrade do sharers = sharers - victim goto Late;
    to asker ! datax(memory) when sharers eq empty and has eq 0 do owner = asker goto Owned;
    to asker ! granted when sharers eq empty and has eq 1 do owner = asker goto Owned;
  }
  state Purging {
    from victim ? ack do sharers = sharers - victim goto Purge;
  }
  state Late {
    to victim ! late goto Purge;
  }
  state Owned {
    from any asker ? gets goto Share;
    from any asker ? getx do has = 0 goto Fetch;
    from owner ? wb(memory) do owner = none goto Clean;
  }
  state Share {
    to owner ! share goto Sharing;
    from owner ? wb(memory) do owner = none goto Fill;
  }
  state Sharing {
    from owner ? wb(memory) do sharers = sharers + owner, owner = none goto Fill;
  }
  state Fetch {
    to owner ! fetch goto Fetching;
    from owner ? wb(memory) do owner = none goto Purge;
  }
  state Fetching {
    from owner ? wb(memory) do owner = none goto Purge;
  }
}
remote {
  var line int 2 = 0;
  start I;
  state I {
    tau goto GetS;
    tau goto GetX;
  }
  state GetS {
    to home ! gets goto FillS;
  }
  state FillS {
    from home ? data(line) goto S;
  }
  state GetX {
    to home ! getx goto FillX;
  }
  state FillX {
    from home ? datax(line) goto M;
  }
  state S {
    tau goto Upgrade;
    tau goto Evict;
    from home ? inv goto Ack;
  }
  state Upgrade {
    to home ! upgrade goto Upgrading;
  }
  state Upgrading {
    from home ? granted goto M;
    from home ? late goto GetX;
  }
  state Evict {
    to home ! evict goto I;
  }
  state Ack {
    to home ! ack goto I;
  }
  state M {
    tau do line = line + 1 goto M;
    tau goto WriteBack;
    from home ? share goto Downgrade;
    from home ? fetch goto WriteBack;
  }
  state WriteBack {
    to home ! wb(line) goto I;
  }
  state Downgrade {
    to home ! wb(line) goto S;
  }
}
claim atmost 1 in M WriteBack Downgrade;
claim not M with S;
claim not M with Upgrade;
claim not WriteBack with S;
claim not Downgrade with S;
";

/// The same, and a reader that is alone may write.
pub const MESI: &[u8] = b"\
protocol mesi version 2;
message gets up;
message getx up;
message upgrade up;
message evict up;
message wb up int 2;
message ack up;
message copy up int 2;
message give up int 2;
message data down int 2;
message excl down int 2;
message datax down int 2;
message inv down;
message share down;
message fetch down;
home {
  var asker node = none;
  var owner node = none;
  var victim node = none;
  var sharers set = empty;
  var late set = empty;
  var memory int 2 = 0;
  start Clean;
  state Clean {
    to any asker in late ! datax(memory) do late = late - asker, owner = asker goto Owned;
    from any asker ? gets when late eq empty goto Fill;
    from any asker ? getx when late eq empty goto Purge;
    from any asker in sharers ? upgrade do sharers = sharers - asker goto Purge;
    from any victim in sharers ? evict do sharers = sharers - victim goto Clean;
  }
  state Fill {
    to asker ! excl(memory) when sharers eq empty do owner = asker goto Owned;
    to asker ! data(memory) when sharers ne empty do sharers = sharers + asker goto Clean;
  }
  state Purge {
    to any victim in sharers ! inv goto Purging;
    from any victim in sharers ? evict do sharers = sharers - victim goto Purge;
    from any victim in sharers ? upgrade do sharers = sharers - victim, late = late + victim goto Purge;
    to asker ! datax(memory) when sharers eq empty do owner = asker goto Owned;
  }
  state Purging {
    from victim ? ack do sharers = sharers - victim goto Purge;
  }
  state Owned {
    to owner ! fetch when late ne empty goto Passing;
    from any asker ? gets when late eq empty goto Share;
    from any asker ? getx when late eq empty goto Fetch;
    from owner ? wb(memory) do owner = none goto Clean;
    from owner ? evict do owner = none goto Clean;
  }
  state Passing {
    from owner ? give(memory) do owner = none goto Clean;
  }
  state Share {
    to owner ! share goto Sharing;
    from owner ? wb(memory) do owner = none goto Fill;
    from owner ? evict do owner = none goto Fill;
  }
  state Sharing {
    from owner ? copy(memory) do sharers = sharers + owner, owner = none goto Fill;
  }
  state Fetch {
    to owner ! fetch goto Fetching;
    from owner ? wb(memory) do owner = none goto Purge;
    from owner ? evict do owner = none goto Purge;
  }
  state Fetching {
    from owner ? give(memory) do owner = none goto Purge;
  }
}
remote {
  var line int 2 = 0;
  start I;
  state I {
    tau goto GetS;
    tau goto GetX;
  }
  state GetS {
    to home ! gets goto FillS;
  }
  state FillS {
    from home ? data(line) goto S;
    from home ? excl(line) goto E;
  }
  state GetX {
    to home ! getx goto FillX;
  }
  state FillX {
    from home ? datax(line) goto M;
  }
  state S {
    tau goto Upgrade;
    tau goto Evict;
    from home ? inv goto Ack;
  }
  state Upgrade {
    to home ! upgrade goto FillX;
  }
  state Evict {
    to home ! evict goto I;
  }
  state Ack {
    to home ! ack goto I;
  }
  state E {
    tau do line = line + 1 goto M;
    tau goto Evict;
    from home ? share goto Copy;
    from home ? fetch goto Give;
  }
  state M {
    tau do line = line + 1 goto M;
    tau goto WriteBack;
    from home ? share goto Copy;
    from home ? fetch goto Give;
  }
  state WriteBack {
    to home ! wb(line) goto I;
  }
  state Copy {
    to home ! copy(line) goto S;
  }
  state Give {
    to home ! give(line) goto I;
  }
}
claim atmost 1 in E M WriteBack Copy Give;
claim not E with S;
claim not M with S;
claim not M with Upgrade;
claim not WriteBack with S;
";

/// The same, and a written line is read by others.
pub const MOESI: &[u8] = b"\
protocol moesi version 2;
message gets up;
message getx up;
message upgrade up;
message evict up;
message wb up int 2;
message ack up;
message copy up int 2;
message clean up int 2;
message give up int 2;
message data down int 2;
message excl down int 2;
message datax down int 2;
message granted down;
message inv down;
message read down;
message fetch down;
home {
  var asker node = none;
  var owner node = none;
  var victim node = none;
  var sharers set = empty;
  var has int 2 = 0;
  var memory int 2 = 0;
  var passed int 2 = 0;
  start Ready;
  state Ready {
    from any asker ? gets when owner eq none goto Fill;
    from any asker ? gets when owner ne none goto Read;
    from any asker ? getx do has = 0, passed = memory goto Purge;
    from any asker in sharers ? upgrade do sharers = sharers - asker, has = 1 goto Purge;
    from owner ? upgrade do asker = owner, owner = none, has = 1 goto Purge;
    from any victim in sharers ? evict do sharers = sharers - victim goto Ready;
    from owner ? evict do owner = none goto Ready;
    from owner ? wb(memory) do owner = none goto Ready;
  }
  state Fill {
    to asker ! excl(memory) when sharers eq empty do owner = asker goto Ready;
    to asker ! data(memory) when sharers ne empty do sharers = sharers + asker goto Ready;
  }
  state Read {
    to owner ! read goto Reading;
    from owner ? upgrade goto Read;
    from owner ? evict do owner = none goto Fill;
    from owner ? wb(memory) do owner = none goto Fill;
  }
  state Reading {
    from owner ? copy(passed) goto Pass;
    from owner ? clean(passed) do sharers = sharers + owner, owner = none goto Pass;
  }
  state Pass {
    to asker ! data(passed) do sharers = sharers + asker goto Ready;
  }
  state Purge {
    to any victim in sharers ! inv goto Purging;
    from any victim in sharers ? evict do sharers = sharers - victim goto Purge;
    from any victim in sharers ? upgrade goto Purge;
    to owner ! fetch goto Fetching;
    from owner ? upgrade goto Purge;
    from owner ? evict do owner = none goto Purge;
    from owner ? wb(passed) do owner = none goto Purge;
    to asker ! datax(passed) when sharers eq empty and owner eq none and has eq 0 do owner = asker goto Ready;
    to asker ! granted when sharers eq empty and owner eq none and has eq 1 do owner = asker goto Ready;
  }
  state Purging {
    from victim ? ack do sharers = sharers - victim goto Purge;
  }
  state Fetching {
    from owner ? give(passed) do owner = none goto Purge;
  }
}
remote {
  var line int 2 = 0;
  start I;
  state I {
    tau goto GetS;
    tau goto GetX;
  }
  state GetS {
    to home ! gets goto FillS;
  }
  state FillS {
    from home ? data(line) goto S;
    from home ? excl(line) goto E;
  }
  state GetX {
    to home ! getx goto FillX;
  }
  state FillX {
    from home ? datax(line) goto M;
  }
  state S {
    tau goto Upgrade;
    tau goto Evict;
    from home ? inv goto Ack;
  }
  state Upgrade {
    to home ! upgrade goto Upgrading;
  }
  state Upgrading {
    from home ? granted goto M;
    from home ? inv goto Ack;
    from home ? read goto Copy;
    from home ? fetch goto Give;
  }
  state Evict {
    to home ! evict goto I;
  }
  state Ack {
    to home ! ack goto I;
  }
  state E {
    tau do line = line + 1 goto M;
    tau goto Evict;
    from home ? read goto Clean;
    from home ? fetch goto Give;
  }
  state M {
    tau do line = line + 1 goto M;
    tau goto WriteBack;
    from home ? read goto Copy;
    from home ? fetch goto Give;
  }
  state O {
    tau goto Upgrade;
    tau goto WriteBack;
    from home ? read goto Copy;
    from home ? fetch goto Give;
  }
  state WriteBack {
    to home ! wb(line) goto I;
  }
  state Copy {
    to home ! copy(line) goto O;
  }
  state Clean {
    to home ! clean(line) goto S;
  }
  state Give {
    to home ! give(line) goto I;
  }
}
claim atmost 1 in E M O WriteBack Copy Clean Give;
claim not E with S;
claim not M with S;
claim not E with Upgrade;
claim not M with Upgrade;
";

/// Write-update.
pub const FIREFLY: &[u8] = b"\
protocol firefly version 2;
message read up;
message ask up;
message write up int 2;
message evict up;
message wb up int 2;
message copy up int 2;
message data down int 2;
message excl down int 2;
message turn down int 2;
message done down int 2;
message update down int 2;
message share down;
home {
  var asker node = none;
  var owner node = none;
  var sharer node = none;
  var sharers set = empty;
  var asked set = empty;
  var behind set = empty;
  var memory int 2 = 0;
  start Clean;
  state Clean {
    to any asker in asked ! turn(memory) do asked = asked - asker goto Turn;
    from any asker ? read goto Fill;
    from any sharer in sharers ? ask do sharers = sharers - sharer, asked = asked + sharer goto Clean;
    from any sharer in sharers ? evict do sharers = sharers - sharer goto Clean;
  }
  state Fill {
    to asker ! excl(memory) when sharers eq empty and asked eq empty do owner = asker goto Owned;
    to asker ! data(memory) when sharers ne empty do sharers = sharers + asker goto Clean;
    to asker ! data(memory) when asked ne empty do sharers = sharers + asker goto Clean;
  }
  state Turn {
    from asker ? write(memory) do behind = sharers goto Update;
  }
  state Update {
    to any sharer in behind ! update(memory) do behind = behind - sharer goto Update;
    from any sharer in sharers ? ask do behind = behind - sharer, sharers = sharers - sharer, asked = asked + sharer goto Update;
    from any sharer in sharers ? evict do behind = behind - sharer, sharers = sharers - sharer goto Update;
    to asker ! done(1) when sharers eq empty and asked eq empty do owner = asker goto Owned;
    to asker ! done(0) when behind eq empty and sharers ne empty do sharers = sharers + asker goto Clean;
    to asker ! done(0) when behind eq empty and asked ne empty do sharers = sharers + asker goto Clean;
  }
  state Owned {
    from any asker ? read goto Share;
    from owner ? evict do owner = none goto Clean;
    from owner ? wb(memory) do owner = none goto Clean;
  }
  state Share {
    to owner ! share goto Sharing;
    from owner ? evict do owner = none goto Fill;
    from owner ? wb(memory) do owner = none goto Fill;
  }
  state Sharing {
    from owner ? copy(memory) do sharers = sharers + owner, owner = none goto Fill;
  }
}
remote {
  var line int 2 = 0;
  var alone int 2 = 0;
  start I;
  state I {
    tau goto Read;
  }
  state Read {
    to home ! read goto Filling;
  }
  state Filling {
    from home ? data(line) goto S;
    from home ? excl(line) goto E;
  }
  state S {
    tau goto Ask;
    tau goto Evict;
    from home ? update(line) goto S;
  }
  state Ask {
    to home ! ask goto Asking;
  }
  state Asking {
    from home ? turn(line) do line = line + 1 goto Write;
  }
  state Write {
    to home ! write(line) goto Writing;
  }
  state Writing {
    from home ? done(alone) goto Written;
  }
  state Written {
    tau when alone eq 0 goto S;
    tau when alone eq 1 do alone = 0 goto E;
  }
  state Evict {
    to home ! evict goto I;
  }
  state E {
    tau do line = line + 1 goto D;
    tau goto Evict;
    from home ? share goto Copy;
  }
  state D {
    tau do line = line + 1 goto D;
    tau goto WriteBack;
    from home ? share goto Copy;
  }
  state WriteBack {
    to home ! wb(line) goto I;
  }
  state Copy {
    to home ! copy(line) goto S;
  }
}
claim atmost 1 in E D WriteBack Copy;
claim not E with S;
claim not D with S;
claim not D with Asking;
claim atmost 1 in Write Writing;
";

/// A buffer of two places.
pub const PRODUCER: &[u8] = b"\
protocol producer version 2;
message join up;
message put up int 4;
message get up;
message role down int 2;
message item down int 4;
home {
  var producer node = none;
  var asker node = none;
  var full int 3 = 0;
  var first int 4 = 0;
  var second int 4 = 0;
  start Open;
  state Open {
    from any asker ? join goto Joining;
    from producer ? put(first) when full eq 0 do full = 1 goto Open;
    from producer ? put(second) when full eq 1 do full = 2 goto Open;
    from any asker ? get when full ne 0 goto Serve;
  }
  state Joining {
    to asker ! role(0) when producer eq none do producer = asker goto Open;
    to asker ! role(1) when producer ne none goto Open;
  }
  state Serve {
    to asker ! item(first) do first = second, second = 0, full = full - 1 goto Open;
  }
}
remote {
  var role int 2 = 0;
  var value int 4 = 0;
  start Join;
  state Join {
    to home ! join goto Joining;
  }
  state Joining {
    from home ? role(role) goto Told;
  }
  state Told {
    tau when role eq 0 goto Make;
    tau when role eq 1 goto Get;
  }
  state Make {
    tau do value = value + 1 goto Put;
  }
  state Put {
    to home ! put(value) goto Make;
  }
  state Get {
    to home ! get goto Getting;
  }
  state Getting {
    from home ? item(value) goto Use;
  }
  state Use {
    tau do value = 0 goto Get;
  }
}
claim atmost 1 in Make Put;
claim atmost 1 in Joining Getting;
";

/// A directory that queues who asks.
pub const QUEUE: &[u8] = b"\
protocol queue version 2;
message get up;
message grant down int 4;
message recall down;
message back up int 4;
home {
  var owner node = none;
  var next node = none;
  var second node = none;
  var third node = none;
  var memory int 4 = 0;
  start Unowned;
  state Unowned {
    to next ! grant(memory) do owner = next, next = second, second = third, third = none goto Owned;
    from any next ? get when next eq none goto Unowned;
    from any second ? get when next ne none and second eq none goto Unowned;
    from any third ? get when second ne none and third eq none goto Unowned;
  }
  state Owned {
    from any next ? get when next eq none goto Owned;
    from any second ? get when next ne none and second eq none goto Owned;
    from any third ? get when second ne none and third eq none goto Owned;
    to owner ! recall when next ne none goto Recalled;
    from owner ? back(memory) do owner = none goto Unowned;
  }
  state Recalled {
    from owner ? back(memory) do owner = none goto Unowned;
  }
}
remote {
  var line int 4 = 0;
  start I;
  state I {
    tau goto Get;
  }
  state Get {
    to home ! get goto Queued;
  }
  state Queued {
    from home ? grant(line) goto M;
  }
  state M {
    tau goto Write;
    tau goto Back;
    from home ? recall goto Back;
  }
  state Write {
    tau do line = line + 1 goto M;
  }
  state Back {
    to home ! back(line) do line = 0 goto I;
  }
}
claim atmost 1 in M Write Back;
claim atmost 4 in Queued M Write Back;
";

/// Nobody begins the next phase before everyone has ended this one.
pub const BARRIER: &[u8] = b"\
protocol barrier version 2;
message join up;
message arrive up;
message leave up;
message phase down int 2;
message go down;
home {
  var one node = none;
  var members set = empty;
  var arrived set = empty;
  var phase int 2 = 0;
  start Closed;
  state Closed {
    from any one ? join goto Joining;
    from any one in members ? arrive do arrived = arrived + one goto Closed;
    from any one in members ? leave do members = members - one goto Closed;
    tau when arrived eq members and arrived ne empty do phase = phase + 1 goto Opened;
  }
  state Joining {
    to one ! phase(phase) do members = members + one goto Closed;
  }
  state Opened {
    to any one in arrived ! go do arrived = arrived - one goto Opened;
    tau when arrived eq empty goto Closed;
  }
}
remote {
  var phase int 2 = 0;
  start Out;
  state Out {
    tau goto Join;
  }
  state Join {
    to home ! join goto Joining;
  }
  state Joining {
    from home ? phase(phase) goto Joined;
  }
  state Joined {
    tau when phase eq 0 goto Even;
    tau when phase eq 1 do phase = 0 goto Odd;
  }
  state Even {
    tau goto EvenEnd;
    tau goto Leave;
  }
  state EvenEnd {
    to home ! arrive goto EvenWait;
  }
  state EvenWait {
    from home ? go goto Odd;
  }
  state Odd {
    tau goto OddEnd;
    tau goto Leave;
  }
  state OddEnd {
    to home ! arrive goto OddWait;
  }
  state OddWait {
    from home ? go goto Even;
  }
  state Leave {
    to home ! leave goto Out;
  }
}
claim not Even with Odd;
claim not Even with OddEnd;
claim not EvenEnd with Odd;
claim not EvenEnd with OddEnd;
claim not EvenWait with OddWait;
";

/// A lock that is handed from holder to successor.
pub const HANDOVER: &[u8] = b"\
protocol handover version 2;
message ask up;
message free up;
message pass up node;
message grant down;
message next down node;
home {
  var tail node = none;
  var asker node = none;
  var holder node = none;
  start Free;
  state Free {
    from any tail ? ask goto Grant;
  }
  state Grant {
    to tail ! grant goto Held;
  }
  state Held {
    from any asker ? ask goto Tell;
    from tail ? free do tail = none goto Free;
    from any holder ? pass(holder) goto Pass;
  }
  state Tell {
    to tail ! next(asker) do tail = asker goto Held;
    from tail ? free do tail = asker goto Grant;
  }
  state Pass {
    to holder ! grant goto Held;
  }
}
remote {
  var next node = none;
  start Idle;
  state Idle {
    tau goto Ask;
  }
  state Ask {
    to home ! ask goto Wait;
  }
  state Wait {
    from home ? grant goto Use;
    from home ? next(next) goto Followed;
  }
  state Followed {
    from home ? grant goto Last;
  }
  state Use {
    tau goto Free;
    from home ? next(next) goto Last;
  }
  state Last {
    tau goto Pass;
  }
  state Free {
    to home ! free goto Idle;
  }
  state Pass {
    to home ! pass(next) do next = none goto Idle;
  }
}
claim atmost 1 in Use Last Free Pass;
claim atmost 2 in Wait;
";
