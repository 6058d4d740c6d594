//! The contents of a run's files, by name.

use command_parts::contents::Content;

/// The files that all runs read.
#[derive(Drop)]
pub struct InputFiles<'a> {
    pub cert: Content<'a>,
    pub trace: Content<'a>,
    pub plan: Content<'a>,
}

/// The files of a certified run.
#[derive(Drop)]
pub struct RunFiles<'a> {
    pub fcl: Content<'a>,
    pub image: Content<'a>,
    pub inputs: InputFiles<'a>,
}

/// The files of a run whose interrupts run a handler's code.
#[derive(Drop)]
pub struct HandledFiles<'a> {
    pub fcl: Content<'a>,
    pub handler: Content<'a>,
    pub inputs: InputFiles<'a>,
}

/// The files of a run of two blocks at two levels.
#[derive(Drop)]
pub struct TwoLevelFiles<'a> {
    pub slow: Content<'a>,
    pub fast: Content<'a>,
    pub image: Content<'a>,
    pub slow_cert: Content<'a>,
    pub fast_cert: Content<'a>,
    pub slow_trace: Content<'a>,
    pub fast_trace: Content<'a>,
    pub levels: Content<'a>,
}

/// The files of a run of a firmware in the mailbox form.
#[derive(Drop)]
pub struct MailboxFiles<'a> {
    pub fcl: Content<'a>,
    pub image: Content<'a>,
    pub cert: Content<'a>,
    pub trace: Content<'a>,
    pub posts: Content<'a>,
}

/// The files of a run of a firmware with watched tables.
#[derive(Drop)]
pub struct WatchedFiles<'a> {
    pub fcl: Content<'a>,
    pub image: Content<'a>,
    pub inputs: InputFiles<'a>,
    pub upsets: Content<'a>,
}
