// What is known of all batches.
ghost use Rattle.kl_batch.specs.Laws.{BatchesGoOn, KernelMatches, KernelStaysMatched, StopsGoOn};

/// After one batch more all are installed, and a stop in it leaves some first ones of them; so it does for any that follow.
pub fn batches_go_on()
    ensures more { BatchesGoOn }
    ensures stops { StopsGoOn }
{}

/// Where a kernel's batch is right the kernel's record names its digest, and no stop in a job parts the two.
pub fn kernel_matches()
    ensures right { KernelMatches }
    ensures stop { KernelStaysMatched }
{}
