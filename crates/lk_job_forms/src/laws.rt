// Laws of the forms: each is the contract of a function that does nothing.
ghost use Rattle.lk_job_forms.specs.JobFile.{JobFilesAreLawful};
ghost use Rattle.lk_job_forms.specs.TextLaws.{EntriesAreTold, ReadsAreTold, BalancesAreTold, TotalsAreTold, OutcomesAreTold};

/// What a job file says is lawful.
pub fn job_files_are_lawful()
    ensures { JobFilesAreLawful }
{}

/// Each line of an outcome determines what it was made of, except for the number of an entry's
/// job. The text of an outcome determines all of it, these numbers included.
pub fn outcomes_tell_all()
    ensures entries { EntriesAreTold }
    ensures reads { ReadsAreTold }
    ensures balances { BalancesAreTold }
    ensures totals { TotalsAreTold }
    ensures outcomes { OutcomesAreTold }
{}
