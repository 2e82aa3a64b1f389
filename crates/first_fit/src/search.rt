use terms::Terms;

// What stays as it is while choices for a job are tried: the rule, the job's terms, the machines in turn, and the
// quiet figures that are known of the plan's jobs, or none yet.
#[derive(Drop)]
pub(crate) struct Search<'a, R> {
    pub(crate) rule: &'a R,
    pub(crate) terms: Terms,
    pub(crate) turns: &'a [u8],
    pub(crate) known: &'a [u32],
}
