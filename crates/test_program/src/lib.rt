//! Tests of the program: what the commands that run firmware print, what those that make or check one file print and
//! write, what is refused, malicious files, reads, writes and puts that fail, and real files.
#![tactic(auto)]

#[cfg(test)]
mod certify;
#[cfg(test)]
mod certs;
#[cfg(test)]
mod debug;
#[cfg(test)]
mod differences;
#[cfg(test)]
mod exec;
#[cfg(test)]
mod failures;
#[cfg(test)]
mod files;
#[cfg(test)]
mod five_files;
#[cfg(test)]
mod generate;
#[cfg(test)]
mod hcheck;
#[cfg(test)]
mod hrun;
#[cfg(test)]
mod images;
#[cfg(test)]
mod lcompile;
#[cfg(test)]
mod lrun;
#[cfg(test)]
mod malicious;
#[cfg(test)]
mod mrun;
#[cfg(test)]
mod reads;
#[cfg(test)]
mod real_files;
#[cfg(test)]
mod real_sinks;
#[cfg(test)]
mod refused;
#[cfg(test)]
mod runs;
#[cfg(test)]
mod srun;
#[cfg(test)]
mod tight;
#[cfg(test)]
mod words;
