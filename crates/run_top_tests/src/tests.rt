// What runs over folders in memory report and refuse, and runs over real files.
mod answered;
mod demo;
mod files;
mod meeting;
mod plans;
mod reads;
mod real_files;
mod report;
mod texts;
